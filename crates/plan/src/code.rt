// The kinds of activities (kind.rt) as numbers as wide as places, for those who read them among such.
// Stays: (d) a second set beside kind.rt: a pattern is of its value's type, so `kind as u32` would stand at each match of the writer, the sheet and the rows.

pub const EMPTY: usize = super::kind::EMPTY as usize;

pub const SEND: usize = super::kind::SEND as usize;

pub const RECEIVE: usize = super::kind::RECEIVE as usize;

pub const SET: usize = super::kind::SET as usize;

pub const RAISE: usize = super::kind::RAISE as usize;

pub const LEAVE: usize = super::kind::LEAVE as usize;

pub const CHOOSE: usize = super::kind::CHOOSE as usize;

pub const REPEAT: usize = super::kind::REPEAT as usize;

pub const SEQUENCE: usize = super::kind::SEQUENCE as usize;

pub const FLOW: usize = super::kind::FLOW as usize;

pub const PICK: usize = super::kind::PICK as usize;

pub const SCOPE: usize = super::kind::SCOPE as usize;

pub const OPEN_SCOPE: usize = super::kind::OPEN_SCOPE as usize;

pub const NUMBERED_RAISE: usize = super::kind::NUMBERED_RAISE as usize;

pub const NUMBERED_SCOPE: usize = super::kind::NUMBERED_SCOPE as usize;

pub const HELD_SEND: usize = super::kind::HELD_SEND as usize;

pub const ASKING_RECEIVE: usize = super::kind::ASKING_RECEIVE as usize;

pub const LAST: usize = super::kind::LAST as usize;

pub const ARM: usize = super::kind::ARM as usize;
