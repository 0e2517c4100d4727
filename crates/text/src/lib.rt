// Text as the programs read it: lines, words, decimal and hexadecimal numbers.
#![tactic(auto)]

mod decimals;
mod hexadecimals;
mod lines;
mod words;

ghost use Rattle.std.specs.Prelude.{◌≡◌, leb};

pub use decimals::decimal_of;
pub use hexadecimals::decode;
pub use lines::{keep, line_of};
pub use words::{same, word_at};

// A word of a line: where it begins, and the place after it. It is empty where the line has no further word.
// Stays: (a) two places and no slice, since a line is read on from the place after a word, and `command_of` of the crate commands, its definition in
// specs/Commands.antt and its clause `inside` speak of both.
#[derive(Clone, Copy, PartialEq, Eq, Debug, Drop)]
pub struct Word {
    pub from: usize,
    pub to: usize,
}

impl Word {
    // Whether the line had no further word.
    pub fn is_empty(self) -> bool
        ensures { result ≡ leb self.to self.from }
    {
        self.to <= self.from
    }
}

// Why a word is no decimal number: it is above 4,294,967,295, or it is not made of digits.
#[derive(Clone, Copy, PartialEq, Eq, Debug, Drop)]
pub enum DecimalError {
    Large,
    Bad,
}

// Why a word spells no bytes: they are more than 8,000, or it is not made of pairs of hexadecimal digits.
#[derive(Clone, Copy, PartialEq, Eq, Debug, Drop)]
pub enum HexError {
    Long,
    Bad,
}
