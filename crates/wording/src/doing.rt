// What an activity is doing in an order, by the order's marks: one of those below, each with its words. (What each mark means:
// crates/order/specs/State.antt.)
use drawing::{Out, after, end_of, entry, has_undo, parent_of, undo_of};
use order::Order;
use plan::kind;
use plan::table::{KIND, Table};

fn mark_at(marks: &[u8; 256], n: usize) -> u8 {
    marks.get(n).copied().unwrap_or(0)
}

// Whether anything runs from activity `from` to the one before `to`.
fn is_running(marks: &[u8; 256], from: usize, to: usize) -> bool {
    (from..to).any(|n| mark_at(marks, n) != 0)
}

// What an activity does: nothing, where it has neither begun nor is known to be over; `Unknown` is what the table of no accepted plan has.
#[derive(Clone, Copy, PartialEq, Eq)]
pub enum Doing {
    Idle,
    Done,
    Running,
    Waiting,
    ToSend,
    ToSet,
    ToRaise,
    ToLeave,
    ToDecide,
    ToClose,
    Remembered,
    Faulted,
    Undoing,
    Handling,
    Stopped,
    StoppedUndoing,
    Undone,
    Unknown,
}

// What an activity does, in words.
fn words_of(doing: Doing) -> &'static [u8] {
    match doing {
        Doing::Idle => b"",
        Doing::Done => b"done",
        Doing::Running => b"running",
        Doing::Waiting => b"waiting for a message",
        Doing::ToSend => b"ready to send",
        Doing::ToSet => b"ready to set",
        Doing::ToRaise => b"ready to raise",
        Doing::ToLeave => b"ready to leave",
        Doing::ToDecide => b"ready to decide",
        Doing::ToClose => b"done, ready to close",
        Doing::Remembered => b"closed, remembered",
        Doing::Faulted => b"faulted",
        Doing::Undoing => b"undoing",
        Doing::Handling => b"handling",
        Doing::Stopped => b"stopped",
        Doing::StoppedUndoing => b"stopped, undoing",
        Doing::Undone => b"being undone",
        Doing::Unknown => b"of an unknown kind",
    }
}

// What an activity does, in words: in a column of its own, or as it is.
pub fn put_doing(out: &mut Out, column: bool, doing: Doing) {
    if column {
        out.put_column(words_of(doing));
    } else {
        out.put(words_of(doing));
    }
}

// What has begun and is not over yet: its step, where it awaits one; else that something within it runs.
fn active_of(kind: u32) -> Doing {
    match kind {
        kind::SEND | kind::HELD_SEND => Doing::ToSend,
        kind::RECEIVE | kind::ASKING_RECEIVE | kind::PICK => Doing::Waiting,
        kind::SET => Doing::ToSet,
        kind::RAISE | kind::NUMBERED_RAISE => Doing::ToRaise,
        kind::LEAVE => Doing::ToLeave,
        kind::CHOOSE | kind::REPEAT => Doing::ToDecide,
        kind::SEQUENCE | kind::FLOW => Doing::Running,
        kind::SCOPE | kind::OPEN_SCOPE | kind::NUMBERED_SCOPE => Doing::Running,
        _ => Doing::Unknown,
    }
}

// What a mark beyond `active` says, whichever fault part it has chosen.
fn marked_of(mark: u8) -> Doing {
    match mark % 16 {
        2 => Doing::Running,
        3 => Doing::ToClose,
        4 => Doing::Faulted,
        5 => Doing::Undoing,
        6 => Doing::Handling,
        7 => Doing::Stopped,
        _ => Doing::StoppedUndoing,
    }
}

// An arm has no mark: it is open while its pick is active, and runs where its pick is inside one of its arms and what stands within this one runs. In
// a stopped body the pick is idle, and its arm with it, though a scope within may run on.
fn arm_of(table: &Table, marks: &[u8; 256], n: usize) -> Doing {
    match mark_at(marks, parent_of(table, n).unwrap_or(n)) {
        1 => Doing::Waiting,
        2 if is_running(marks, n, end_of(table, n)) => Doing::Running,
        _ => Doing::Idle,
    }
}

// Of a sequence that runs, those that stand before what runs are done.
fn in_sequence(table: &Table, marks: &[u8; 256], parent: usize, n: usize) -> Doing {
    if mark_at(marks, parent) == 1 && is_running(marks, end_of(table, n), end_of(table, parent)) {
        Doing::Done
    } else {
        Doing::Idle
    }
}

// Of a flow that runs, those that do not run are done.
fn in_flow(mark: u8) -> Doing {
    if mark == 1 { Doing::Done } else { Doing::Idle }
}

// The body of a scope with this mark.
fn body_of(mark: u8) -> Doing {
    match mark {
        0..=2 => Doing::Idle,
        3 => Doing::Done,
        _ => Doing::Stopped,
    }
}

// A part of a scope with this mark.
fn part_of(mark: u8, body: bool) -> Doing {
    if body { body_of(mark) } else { Doing::Idle }
}

// What is idle: done, stopped, or neither begun nor known to be over.
fn idle_of(table: &Table, marks: &[u8; 256], root: u8, n: usize) -> Doing {
    if n == 0 {
        return body_of(root);
    }
    let parent = parent_of(table, n).unwrap_or(n);
    match entry(table, parent, KIND) {
        kind::SEQUENCE => in_sequence(table, marks, parent, n),
        kind::FLOW => in_flow(mark_at(marks, parent)),
        kind::SCOPE | kind::OPEN_SCOPE | kind::NUMBERED_SCOPE => {
            part_of(mark_at(marks, parent), after(parent) == n)
        }
        _ => Doing::Idle,
    }
}

// Which scope closed, and for what part that is remembered, of the closing in place i.
pub fn scope_in(order: Order, i: usize) -> usize {
    order
        .remembered
        .get(i)
        .map_or(0, |closing| usize::from(closing.scope))
}

pub(crate) fn part_in(order: Order, i: usize) -> usize {
    order
        .remembered
        .get(i)
        .map_or(0, |closing| usize::from(closing.part))
}

// Whether the scope n is remembered.
fn is_remembered(order: Order, n: usize) -> bool {
    (0..order.kept.min(32)).any(|i| scope_in(order, i) == n)
}

// Whether the undo part of scope n runs.
fn is_undone(table: &Table, marks: &[u8; 256], n: usize) -> bool {
    has_undo(entry(table, n, KIND)) && is_running(marks, undo_of(table, n), end_of(table, n))
}

fn resting_of(table: &Table, marks: &[u8; 256], order: Order, n: usize) -> Doing {
    if is_undone(table, marks, n) {
        Doing::Undone
    } else if is_remembered(order, n) {
        Doing::Remembered
    } else if entry(table, n, KIND) == kind::ARM {
        arm_of(table, marks, n)
    } else {
        idle_of(table, marks, order.root, n)
    }
}

// What activity or arm n is doing.
pub fn doing_of(table: &Table, order: Order, n: usize) -> Doing {
    let marks = order.marks;
    match mark_at(&marks, n) {
        0 => resting_of(table, &marks, order, n),
        1 => active_of(entry(table, n, KIND)),
        mark => marked_of(mark),
    }
}
