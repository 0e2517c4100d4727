// One order: what it holds, what the rows of its plan say, how its marks and what it remembers change, and what expressions come to.
#![tactic(auto)]

pub mod evaluation;
pub mod fault;
pub mod inside;
pub mod kind;
pub mod mark;
pub mod marks;
pub mod memory;
pub mod parts;
pub mod rows;
pub mod sending;

ghost use Rattle.std.specs.Prelude.{◌≡◌};
ghost use Rattle.order.specs.Answering.{is_over};

// An order. Where `root` is 0 the slot is free; else `root` is the mark of the root, which counts as a scope and has no number.
// `marks` has the mark of each activity by its number. `bound` is 1 where the variable of that number is bound and 0 where it is not.
// The first `kept` places of `remembered` are the closings, oldest first, and the places beyond hold 0. `cause` is the number of the fault that the root
// faulted with, 0 where it has not faulted.
// Stays: (a) the state is what is saved and given through C, byte for byte: so `bound` is bytes, `root` and `cause` say by 0 that there is none, and `kept` stands beside its
// fixed places, as nothing is allocated (`no_order`, `remembering` and `is_live` of specs/State.antt).
#[derive(Clone, Copy)]
pub struct Order {
    pub root: u8,
    pub marks: [u8; 256],
    pub values: [u32; 16],
    pub bound: [u8; 16],
    pub remembered: [Closing; 32],
    pub kept: usize,
    pub cause: u8,
}

// A closing that is remembered: the number of the scope that closed, and the part that it is remembered for, by the number of that part's first
// activity: 0 the root's body, k + 1 the body of scope k.
#[derive(Clone, Copy)]
pub struct Closing {
    pub scope: u8,
    pub part: u8,
}

// How an order ended with a step, if it did.
#[derive(Clone, Copy)]
pub enum End {
    None,
    Well,
    Handled,
    Failed,
    Left,
}

// How what runs stands after a step in it: it runs on; it is over; a fault came out of it; the order leaves; and of what stands around an undo
// part that is running, the undo part is over, or a fault came out of it. A fault has its number.
// Stays: (a) the definitions of specs/Scope.antt, of which the theorems speak, have these six as their `Outcome`.
#[derive(Clone, Copy)]
pub enum Way {
    Running,
    Over,
    Raising { number: u8 },
    Leaving,
    Undone,
    UndoRaising { number: u8 },
}

impl Way {
    // Whether something is over.
    #[tactic(auto, unfolding(crate::specs::Answering::is_over))]
    pub fn is_over(self) -> bool
        ensures { result ≡ is_over self }
    {
        matches!(self, Way::Over)
    }
}

// An order after a step in part of it, and how that part stands.
#[derive(Clone, Copy)]
pub struct Went {
    pub way: Way,
    pub order: Order,
}

// The marks after something began, and whether it is over already.
// Stays: (a) `Begun` of specs/Begin.antt has both: the marks stand whether it is over or not.
#[derive(Clone, Copy)]
pub struct Entered {
    pub marks: [u8; 256],
    pub over: bool,
}

// A scope by the rows of the table: the root, or the scope with the number `first`. Its numbers are `first` to `end`, its body stands from `body`
// on, and its fault parts, right after the body, from `parts` on: `count` by number, and then the general one.
// Stays: (d) `root` beside `first`: the root too has its rows from 0 on, and an Option of a number would lose them.
#[derive(Clone, Copy)]
pub struct Spot {
    pub root: bool,
    pub first: usize,
    pub end: usize,
    pub body: usize,
    pub parts: usize,
    pub count: usize,
}

// An order after a step, how it ended, if it did, and the number of the fault that the root handled, or that went out of the root, where it ended so.
// Stays: (a) `Moved` of specs/Acting.antt has the number beside the end, and hosts in C are given both.
#[derive(Clone, Copy)]
pub struct Next {
    pub end: End,
    pub fault: u8,
    pub order: Order,
}
