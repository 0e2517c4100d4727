// What takes a text: a lent buffer (output.rt), or what the desk writes (`Out` of the crate drawing).

// What takes bytes. All else that is put is put by its bytes.
pub trait Sink {
    fn put_byte(&mut self, b: u8);

    fn put(&mut self, text: &[u8]) {
        for b in text {
            self.put_byte(*b);
        }
    }

    // A byte, where it is wanted.
    fn put_if(&mut self, wanted: bool, b: u8) {
        if wanted {
            self.put_byte(b);
        }
    }

    // A number in decimal, which has 20 digits at most.
    fn put_number(&mut self, number: u64) {
        if number < 10 {
            self.put_byte(b'0' + number as u8);
            return;
        }
        let mut digits = [0u8; 20];
        let mut left = number;
        for i in (0..20).rev() {
            digits[i] = b'0' + (left % 10) as u8;
            left /= 10;
            if left == 0 {
                self.put(&digits[i..]);
                return;
            }
        }
    }

    // A number with a blank in front.
    fn put_next(&mut self, number: u64) {
        self.put_byte(b' ');
        self.put_number(number);
    }

    // A number below 1,000, with blanks in front up to three places.
    fn put_aligned(&mut self, number: u64) {
        self.put_if(number < 100, b' ');
        self.put_if(number < 10, b' ');
        self.put_number(number);
    }
}
