// A step in words, as it was taken.
use super::letters::put_letter;
use super::ready::{SENDS, fault_of, put_sending_fault, put_sent};
use super::settled::{deed_of, put_raises};
use drawing::{Out, entry, put_fault_name, put_scope, put_variable};
use machine::{Message, Step};
use order::fault::Fault;
use order::{End, Order};
use plan::kind;
use plan::table::{EXPRESSION, KIND, NUMBER, Table, VARIABLE};
use sayings::put_by_fault;

// An end by a fault.
fn put_ended_by(out: &mut Out, names: &[u8; 16896], words: &[u8], fault: u8) {
    out.put(words);
    put_by_fault(out, names, fault);
}

// How an order ended, if it did, and by which fault, where it was by one.
fn put_end(out: &mut Out, names: &[u8; 16896], end: End, fault: u8) {
    match end {
        End::None => {}
        End::Well => out.put(b"; it ended well"),
        End::Handled => put_ended_by(out, names, b"; it ended handled", fault),
        End::Failed => put_ended_by(out, names, b"; it failed", fault),
        End::Left => out.put(b"; it left"),
    }
}

// Whose step it was; an order that had not begun starts with it.
fn put_whose(out: &mut Out, slot: usize, root: u8) {
    out.put(b"order");
    out.put_next(slot as u64);
    if root == 0 {
        out.put(b" started: it took ");
    } else {
        out.put(b" ");
    }
}

fn put_took(
    out: &mut Out,
    names: &[u8; 16896],
    table: &Table,
    activities: usize,
    root: u8,
    m: Message,
) {
    if root != 0 {
        out.put(b"took ");
    }
    put_letter(out, names, table, activities, m);
}

// A send, or the fault that it is.
fn put_send(
    out: &mut Out,
    names: &[u8; 16896],
    table: &Table,
    flags: &[u8; 16],
    n: usize,
    order: Order,
) {
    let bound = order.bound;
    let values = order.values;
    let cause = fault_of(table, n, &bound, &values);
    if cause == SENDS {
        out.put(b"sent ");
    } else {
        out.put(b"faulted: it could not send ");
    }
    put_sent(out, names, table, flags, n, &bound, &values);
    put_sending_fault(out, names, cause);
}

fn put_set(out: &mut Out, names: &[u8; 16896], variable: u32, w: Result<u32, Fault>) {
    match w {
        Ok(value) => {
            out.put(b"set ");
            put_variable(out, names, variable);
            out.put(b" to");
            out.put_next(value as u64);
        }
        Err(fault) => {
            out.put(b"faulted: it could not set ");
            put_variable(out, names, variable);
            put_by_fault(out, names, fault.number);
        }
    }
}

fn put_chosen(out: &mut Out, names: &[u8; 16896], w: Result<u32, Fault>, yes: &[u8], no: &[u8]) {
    match w {
        Ok(0) => out.put(no),
        Ok(_) => out.put(yes),
        Err(fault) => {
            out.put(b"faulted: it could not decide");
            put_by_fault(out, names, fault.number);
        }
    }
}

fn worth_of(table: &Table, n: usize, order: Order) -> Result<u32, Fault> {
    order::evaluation::evaluate_at(table, order, entry(table, n, EXPRESSION) as usize, 8)
}

fn put_closed(out: &mut Out, names: &[u8; 16896], table: &Table, n: usize) {
    out.put(b"closed ");
    put_scope(out, names, table, n);
}

// A scope with no undo part.
fn put_handed_on(out: &mut Out, names: &[u8; 16896], table: &Table, n: usize) {
    put_closed(out, names, table, n);
    out.put(b", and handed on what closed in it");
}

// A raise with a number of its own.
fn put_raised(out: &mut Out, names: &[u8; 16896], table: &Table, n: usize) {
    out.put(b"raised ");
    put_fault_name(out, names, b"fault ", entry(table, n, NUMBER));
}

// What a step did, by its activity.
fn put_did(
    out: &mut Out,
    names: &[u8; 16896],
    table: &Table,
    flags: &[u8; 16],
    activities: usize,
    n: usize,
    order: Order,
    m: Message,
) {
    match entry(table, n, KIND) {
        kind::SEND | kind::HELD_SEND => put_send(out, names, table, flags, n, order),
        kind::RECEIVE | kind::ASKING_RECEIVE | kind::ARM => put_took(
            out, names, table, activities, order.root, m,
        ),
        kind::SET => put_set(
            out,
            names,
            entry(table, n, VARIABLE),
            worth_of(table, n, order),
        ),
        kind::RAISE => out.put(b"raised a fault"),
        kind::NUMBERED_RAISE => put_raised(out, names, table, n),
        kind::LEAVE => out.put(b"left what it was doing"),
        kind::CHOOSE => put_chosen(
            out,
            names,
            worth_of(table, n, order),
            b"decided: then",
            b"decided: else",
        ),
        kind::REPEAT => put_chosen(
            out,
            names,
            worth_of(table, n, order),
            b"goes round once more",
            b"goes round no more",
        ),
        kind::SCOPE | kind::NUMBERED_SCOPE => put_closed(out, names, table, n),
        kind::OPEN_SCOPE => put_handed_on(out, names, table, n),
        _ => out.put(b"had a step of an unknown kind"),
    }
}

// The raises behind a step, where it left two open for one thing.
fn put_behind(out: &mut Out, table: &Table, activities: usize, order: Order, m: Message, n: usize) {
    let values = m.values;
    let given = [values[0], values[1], values[2], values[3], m.reply];
    let next = deed_of(table, activities, order, n, given);
    put_raises(out, table, activities, next);
}

// A step that was taken, where `order` stood in its slot before it and `m` is the message at its place.
pub fn put_step(
    out: &mut Out,
    names: &[u8; 16896],
    table: &Table,
    flags: &[u8; 16],
    activities: usize,
    order: Order,
    m: Message,
    x: Step,
) {
    let end = x.end;
    put_whose(out, x.slot, order.root);
    put_did(out, names, table, flags, activities, x.activity, order, m);
    put_behind(out, table, activities, order, m, x.activity);
    put_end(out, names, end, x.fault);
}
