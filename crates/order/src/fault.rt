// The faults: their numbers, named as in the definitions (specs/Expression.antt).

// A fault of an expression, by its number.
#[derive(Clone, Copy, PartialEq, Eq, Debug)]
pub struct Fault {
    pub number: u8,
}

// Stays: (a) these are numbers, which no enum has: a raise has one of its own, up to 255 (`is_fault_number`), an order keeps one as a byte of its state
// (`Order`'s `cause`), and `acted` and `step_order` answer one to hosts in C.
// A raise of the plan's own.
pub const PLAIN_RAISE: u8 = 0;

// An expression or a send with a variable that is not bound.
pub const UNBOUND_VARIABLE: u8 = 1;

// A sum above 4,294,967,295, and a difference below zero.
pub const SUM_TOO_LARGE: u8 = 2;

pub const BELOW_ZERO: u8 = 3;

// A raise in place of the higher-numbered of two that await the same message.
pub const CONFLICTING_RECEIVE: u8 = 4;

// A send whose variable holds no partner: one above 63.
pub const NO_SUCH_PARTNER: u8 = 5;
