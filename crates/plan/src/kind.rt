// The kinds of activities, by document 01's codes; an arm of a pick, which has no code, has a kind of its own.
// Stays: (a) numbers and no enum: a row of the table holds its kind in a cell of u32, and `kind` of specs/Tree.antt, by which `table_for` writes it, is a number.

pub const EMPTY: u32 = 0;

pub const SEND: u32 = 1;

pub const RECEIVE: u32 = 2;

pub const SET: u32 = 3;

pub const RAISE: u32 = 4;

pub const LEAVE: u32 = 5;

pub const CHOOSE: u32 = 6;

pub const REPEAT: u32 = 7;

pub const SEQUENCE: u32 = 8;

pub const FLOW: u32 = 9;

pub const PICK: u32 = 10;

pub const SCOPE: u32 = 11;

// A scope with no undo part of its own.
pub const OPEN_SCOPE: u32 = 12;

// A raise with the number of its fault.
pub const NUMBERED_RAISE: u32 = 13;

// A scope with fault parts by number, and with an undo part.
pub const NUMBERED_SCOPE: u32 = 14;

// A send to the partner that a variable holds, with a partner to reply to.
pub const HELD_SEND: u32 = 17;

// A receive that stores whom to reply to.
pub const ASKING_RECEIVE: u32 = 18;

// The last of the codes that follow each other: above it stand those of a send and a receive with a reply partner alone.
pub const LAST: u32 = NUMBERED_SCOPE;

pub const ARM: u32 = 255;
