// A plan as text while its lines come in, after the line `write`.
use arrayvec::ArrayVec;

// Why a text cannot be kept: a line of it is too long, or all of them together are.
#[derive(Clone, Copy)]
pub enum Excess {
    Line,
    Text,
}

// The line of the write; what is kept of the text; and the first line that could not be, with the reason, where there is one.
#[derive(Drop)]
pub struct Incoming {
    pub line: u64,
    pub text: ArrayVec<u8, 131072>,
    pub spoilt: Option<(u64, Excess)>,
}

impl Incoming {
    // A text begins after this line.
    pub fn begun(line: u64) -> Incoming {
        Incoming {
            line,
            text: ArrayVec::new(),
            spoilt: None,
        }
    }

    // The line with this number cannot be kept: one before it may be the first.
    pub fn spoil(&mut self, number: u64, why: Excess) {
        if self.spoilt.is_none() {
            self.spoilt = Some((number, why));
        }
    }

    // A line more, with a line feed.
    pub fn add(&mut self, line: &[u8], number: u64) {
        if line.len() < self.text.remaining_capacity() {
            let _ = self.text.try_extend_from_slice(line);
            let _ = self.text.try_push(b'\n');
        } else {
            self.spoil(number, Excess::Text);
        }
    }
}

// Whether a line ends the text: it has no word.
pub fn is_end(line: &[u8]) -> bool {
    let w = text::word_at(line, 0);
    w.to <= w.from
}
