// The operations of an expression.
use super::marks::{after_word, byte_at, more};

#[derive(Clone, Copy, PartialEq, Eq)]
pub(crate) enum Operation {
    Or,
    And,
    Not,
    Equal,
    Less,
    More,
    NotMore,
    NotLess,
    NotEqual,
    Sum,
    Difference,
    // A parenthesis that opens.
    Parenthesis,
}

use Operation::{
    And, Difference, Equal, Less, More, Not, NotEqual, NotLess, NotMore, Or, Parenthesis, Sum,
};

impl Operation {
    // How strongly it binds: `or` least, sums most; a parenthesis holds everything apart.
    pub(crate) fn level(self) -> usize {
        match self {
            Parenthesis => 0,
            Or => 1,
            And => 2,
            Not => 3,
            Equal | Less | More | NotMore | NotLess | NotEqual => 4,
            Sum | Difference => 5,
        }
    }

    // Whether it is done before the next one. Sums go from the left, `and` and `or` from the right.
    pub(crate) fn is_before(self, next: Operation) -> bool {
        next.level() < self.level() || next.level() == self.level() && self.level() == 5
    }

    // Whether two comparisons stand side by side, which is no expression.
    pub(crate) fn is_compared(self, next: Operation) -> bool {
        self.level() == 4 && next.level() == 4
    }
}

// The operation between two operands that is next, at p, and the place after it. A `=` may follow one mark at once.
pub(crate) fn operation_at(s: &[u8], p: usize) -> Option<(Operation, usize)> {
    let behind = more(p);
    let operation = match (byte_at(s, p), byte_at(s, behind)) {
        (b'<', b'=') => return Some((NotMore, more(behind))),
        (b'>', b'=') => return Some((NotLess, more(behind))),
        (b'!', b'=') => return Some((NotEqual, more(behind))),
        (b'+', _) => Sum,
        (b'-', _) => Difference,
        (b'=', _) => Equal,
        (b'<', _) => Less,
        (b'>', _) => More,
        _ => return worded(s, p),
    };
    Some((operation, behind))
}

fn worded(s: &[u8], p: usize) -> Option<(Operation, usize)> {
    match after_word(s, p, b"and") {
        Some(to) => Some((And, to)),
        None => after_word(s, p, b"or").map(|to| (Or, to)),
    }
}
