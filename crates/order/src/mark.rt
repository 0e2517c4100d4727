// The marks, named as in the definitions (specs/State.antt). A scope that faulted has beside its mark which fault part it runs: `marks` puts these together.
// Stays: (a) they are numbers, as an order's `marks` and `root` are bytes of a state, saved and given through C, and specs/State.antt, of which every theorem speaks, has
// them as numbers: `mark_with` puts a choice and a mark into one.

// An activity is idle unless it has begun and is not over. Active: a sequence or a flow runs, a scope's body runs, anything else awaits its step.
// Inside: a choose or a repeat has decided, or an arm of a pick was taken, and what stands within runs.
pub const IDLE: u8 = 0;

pub const ACTIVE: u8 = 1;

pub const INSIDE: u8 = 2;

// A scope whose body is done; one that faulted, and waits for its inner scopes; one that faulted and undoes; one that runs its fault part.
pub const DONE: u8 = 3;

pub const FAULTY: u8 = 4;

pub const UNDOING: u8 = 5;

pub const HANDLING: u8 = 6;

// A scope that was stopped, and waits for its inner scopes; one that was stopped and undoes.
pub const HALTED: u8 = 7;

pub const WITHDRAWING: u8 = 8;
