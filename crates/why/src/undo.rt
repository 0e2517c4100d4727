// What would be undone if what it is remembered for faulted now: the closings of an order, the latest first, and what each would send.
use drawing::{Out, end_of, entry, put_scope, undo_of};
use order::Order;
use plan::kind;
use plan::table::{KIND, Table};
use telling::put_sent;

// For what a closing is remembered: the body of the root is part 0, and that of scope k is part k + 1.
fn put_whose(out: &mut Out, names: &[u8; 16896], table: &Table, part: usize) {
    if 0 < part {
        out.put(b" for ");
        put_scope(out, names, table, part - 1);
    } else {
        out.put(b" for the root");
    }
}

fn is_send(table: &Table, n: usize) -> bool {
    match entry(table, n, KIND) {
        kind::SEND | kind::HELD_SEND => true,
        _ => false,
    }
}

// The send in row n, where it is one.
fn put_one(
    out: &mut Out,
    names: &[u8; 16896],
    table: &Table,
    flags: &[u8; 16],
    n: usize,
    order: Order,
) {
    if !is_send(table, n) {
        return;
    }
    let bound = order.bound;
    let values = order.values;
    out.put(b"    by sending ");
    put_sent(out, names, table, flags, n, &bound, &values);
    out.put_byte(b'\n');
}

// What stands from one activity to the one before another sends.
fn put_sends(
    out: &mut Out,
    names: &[u8; 16896],
    table: &Table,
    flags: &[u8; 16],
    from: usize,
    to: usize,
    order: Order,
) {
    for n in from..to {
        put_one(out, names, table, flags, n, order);
    }
}

// A closing of scope n for a part.
fn put_closing(
    out: &mut Out,
    names: &[u8; 16896],
    table: &Table,
    flags: &[u8; 16],
    n: usize,
    part: usize,
    order: Order,
) {
    put_scope(out, names, table, n);
    put_whose(out, names, table, part);
    out.put_byte(b'\n');
    let from = undo_of(table, n);
    put_sends(out, names, table, flags, from, end_of(table, n), order);
}

// The closing in place i, of those that an order remembers, the oldest in place 0: which scope, for what, and what its undo part sends.
pub fn put_undone(
    out: &mut Out,
    names: &[u8; 16896],
    table: &Table,
    flags: &[u8; 16],
    i: usize,
    order: Order,
) {
    if i < 32 && i < order.kept {
        let remembered = order.remembered;
        let c = remembered[i];
        put_closing(
            out,
            names,
            table,
            flags,
            usize::from(c.scope),
            usize::from(c.part),
            order,
        );
    }
}

// The same in `why`, where there is one.
fn put_would_undo(
    out: &mut Out,
    names: &[u8; 16896],
    table: &Table,
    flags: &[u8; 16],
    i: usize,
    order: Order,
) {
    if i < order.kept {
        out.put(b"  would undo ");
        put_undone(out, names, table, flags, i, order);
    }
}

// All closings that an order remembers, the latest first.
pub(crate) fn put_undo(
    out: &mut Out,
    names: &[u8; 16896],
    table: &Table,
    flags: &[u8; 16],
    order: Order,
) {
    for i in (0..32).rev() {
        put_would_undo(out, names, table, flags, i, order);
    }
}
