// A text in a lent buffer. (No text of an accepted plan is as long as the buffer: docs/DECISIONS.md.)
use super::sink::Sink;

// A text in a lent buffer: its first `used` bytes.
// Stays: (a) a fixed buffer with a length and no `Vec`, since what is installed for C, as `moonhalyard_draw` of the crate boundary_text, allocates nothing.
#[derive(Drop)]
pub(crate) struct Text<'a> {
    pub(crate) bytes: &'a mut [u8; 65536],
    pub(crate) used: usize,
}

impl Sink for Text<'_> {
    fn put_byte(&mut self, b: u8) {
        if self.used < 65536 {
            self.bytes[self.used] = b;
            self.used += 1;
        }
    }

    // All at once: byte by byte a drawing takes a third more time.
    fn put(&mut self, text: &[u8]) {
        let used = self.used;
        if let Some(room) = self.bytes.get_mut(used..) {
            let n = text.len().min(room.len());
            for (to, from) in room.iter_mut().zip(text) {
                *to = *from;
            }
            self.used = used + n;
        }
    }
}
