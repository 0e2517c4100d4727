// What an order does and waits for, a line for each activity that awaits its step.
use super::holding::is_held;
use super::near::put_near;
use drawing::{Out, Plan, entry, is_scope, put_activity, put_scope};
use machine::State;
use order::{Order, fault};
use plan::kind;
use plan::table::{KIND, Table};
use sayings::{has_faulted, put_by_fault, put_scope_faulted};
use telling::{SENDS, fault_of, put_known, put_sending_fault, put_sent};

fn mark_at(marks: &[u8; 256], n: usize) -> u8 {
    marks.get(n).copied().unwrap_or(0)
}

fn put_place(out: &mut Out, n: usize) {
    out.put(b" (activity");
    out.put_next(n as u64);
    out.put(b")");
}

// A receive or an arm that is open, and the messages beside it.
fn put_open(
    out: &mut Out,
    names: &[u8; 16896],
    table: &Table,
    flags: &[u8; 16],
    n: usize,
    state: State,
    order: Order,
) {
    let bound = order.bound;
    let values = order.values;
    let messages = state.messages;
    let known = fit::fitness::known_of(flags, order);
    let asked = fit::fitness::asked_at(table, &known, n);
    out.put(b"  waits for ");
    put_known(out, names, table, flags, n, &bound, &values);
    put_place(out, n);
    out.put_byte(b'\n');
    put_near(out, names, table, n, &asked, messages, state.waiting);
}

// A send that awaits its step: it may be held while 64 messages wait, and is a fault where a variable is not bound, or holds a partner that there is not.
fn put_send(
    out: &mut Out,
    names: &[u8; 16896],
    table: &Table,
    flags: &[u8; 16],
    n: usize,
    held: bool,
    order: Order,
) {
    let bound = order.bound;
    let values = order.values;
    out.put(b"  is to send ");
    put_sent(out, names, table, flags, n, &bound, &values);
    put_place(out, n);
    if held {
        out.put(b": held, since 64 messages wait\n");
    } else {
        let cause = fault_of(table, n, &bound, &values);
        if cause != SENDS {
            out.put(b": it will fault");
            put_sending_fault(out, names, cause);
        }
        out.put_byte(b'\n');
    }
}

// Row k and its rival, by their numbers.
fn put_rivals(out: &mut Out, table: &Table, k: usize) {
    if let Some(rival) = checking::rival_of(table, k) {
        out.put(b"; activities");
        out.put_next(rival as u64);
        out.put(b" and");
        out.put_next(k as u64);
        out.put(b" are for the same thing");
    }
}

// Of a conflicting receive, the first two that are for one thing and may have made the root fault.
fn put_conflict(out: &mut Out, table: &Table, cause: u8) {
    if cause == fault::CONFLICTING_RECEIVE {
        if let Some(k) = checking::contested_in(table, None) {
            put_rivals(out, table, k);
        }
    }
}

// The root, which has this mark: where it has faulted, by which fault.
pub(crate) fn put_root_faulted(
    out: &mut Out,
    names: &[u8; 16896],
    table: &Table,
    mark: u8,
    cause: u8,
) {
    if !has_faulted(mark) {
        return;
    }
    out.put(b"  the root faulted");
    put_by_fault(out, names, cause);
    put_conflict(out, table, cause);
    out.put_byte(b'\n');
}

fn may_be_contested(choice: u8) -> bool {
    match choice {
        0 | 13 => true,
        _ => false,
    }
}

// Where the mark of a scope says that two receives were open for one thing, or does not say what it was, the first two in scope n for which that may be.
fn put_contested(out: &mut Out, table: &Table, n: usize, choice: u8) {
    if may_be_contested(choice) {
        if let Some(k) = checking::contested_in(table, Some(n)) {
            put_rivals(out, table, k);
        }
    }
}

// Scope n, which has this mark: where it has faulted, by which fault.
fn put_faulted(out: &mut Out, names: &[u8; 16896], table: &Table, n: usize, mark: u8) {
    if has_faulted(mark) {
        out.put(b"  ");
        put_scope_faulted(out, names, table, n, mark);
        put_contested(out, table, n, mark / 16);
        out.put_byte(b'\n');
    }
}

fn put_close(out: &mut Out, names: &[u8; 16896], table: &Table, n: usize, held: bool) {
    out.put(b"  is to close ");
    put_scope(out, names, table, n);
    if held {
        out.put(b": held, since the order remembers 32 closings\n");
    } else {
        out.put_byte(b'\n');
    }
}

fn put_ready(out: &mut Out, names: &[u8; 16896], table: &Table, flags: &[u8; 16], n: usize) {
    out.put(b"  is to ");
    let plan = Plan {
        names,
        table,
        correlation: flags,
    };
    put_activity(out, plan, n);
    put_place(out, n);
    out.put_byte(b'\n');
}

// Activity n, which has the mark of what awaits its step or runs.
fn put_active(
    out: &mut Out,
    names: &[u8; 16896],
    table: &Table,
    flags: &[u8; 16],
    n: usize,
    held: bool,
    state: State,
    order: Order,
) {
    match entry(table, n, KIND) {
        kind::SEND | kind::HELD_SEND => put_send(out, names, table, flags, n, held, order),
        kind::RECEIVE | kind::ASKING_RECEIVE => put_open(out, names, table, flags, n, state, order),
        kind::SET
        | kind::RAISE
        | kind::NUMBERED_RAISE
        | kind::LEAVE
        | kind::CHOOSE
        | kind::REPEAT => put_ready(out, names, table, flags, n),
        _ => {}
    }
}

// Activity or arm n, whose step is held or not.
pub(crate) fn put_row(
    out: &mut Out,
    names: &[u8; 16896],
    table: &Table,
    flags: &[u8; 16],
    picks: &[usize; 256],
    n: usize,
    held: bool,
    state: State,
    order: Order,
) {
    let marks = order.marks;
    let mark = mark_at(&marks, n);
    if mark == 1 {
        put_active(out, names, table, flags, n, held, state, order);
    } else if mark == 3 {
        put_close(out, names, table, n, held);
    } else if fit::search::arm_open(table, picks, &marks, n) {
        put_open(out, names, table, flags, n, state, order);
    } else if is_scope(entry(table, n, KIND)) {
        put_faulted(out, names, table, n, mark);
    }
}

pub(crate) fn put_rows(
    out: &mut Out,
    names: &[u8; 16896],
    table: &Table,
    flags: &[u8; 16],
    picks: &[usize; 256],
    activities: usize,
    state: State,
    order: Order,
) {
    for n in 0..activities {
        let held = is_held(table, picks, activities, state.waiting, order, n);
        put_row(out, names, table, flags, picks, n, held, state, order);
    }
}
