// The tuple of a send or a receive with the values that an order knows.
use super::letters::{put_exchange, put_reply};
use drawing::{Out, entry, put_operation, put_variable};
use order::fault;
use plan::kind;
use plan::table::{COUNT, KIND, OPERATION, PARTNER, Table, VARIABLE, VARIABLES};
use sayings::put_by_fault;

// A variable, with its value where it is bound and asked for.
fn put_one(
    out: &mut Out,
    names: &[u8; 16896],
    wanted: bool,
    bound: &[u8; 16],
    values: &[u32; 16],
    variable: u32,
) {
    put_variable(out, names, variable);
    if wanted {
        put_bound(out, bound, values, variable);
    }
}

fn wide(value: u32) -> u64 {
    value as u64
}

fn put_bound(out: &mut Out, bound: &[u8; 16], values: &[u32; 16], variable: u32) {
    let v = variable as usize;
    if v < 16 {
        if bound[v] == 1 {
            out.put_byte(b' ');
            out.put_number(wide(values[v]));
        } else {
            out.put(b" (not bound)");
        }
    }
}

// The value of a variable of an order, plus 1; 0 where it is not bound.
pub fn value_in(bound: &[u8; 16], values: &[u32; 16], variable: u32) -> u64 {
    let v = variable as usize;
    if v < 16 {
        if bound[v] == 1 {
            return plus_one(values[v]);
        }
    }
    0
}

fn plus_one(value: u32) -> u64 {
    value as u64 + 1
}

// Whether the value of a variable is told: in what is sent always, in what is asked for only where it is for correlation and bound.
fn is_wanted(sent: bool, flags: &[u8; 16], bound: &[u8; 16], variable: u32) -> bool {
    if sent {
        return true;
    }
    let v = variable as usize;
    if v < 16 {
        if flags[v] == 1 {
            return bound[v] == 1;
        }
    }
    false
}

// The variable in a field of row n.
fn put_member(
    out: &mut Out,
    names: &[u8; 16896],
    table: &Table,
    flags: &[u8; 16],
    n: usize,
    sent: bool,
    bound: &[u8; 16],
    values: &[u32; 16],
    i: usize,
) {
    if i < 4 && i < entry(table, n, COUNT) as usize {
        let v = entry(table, n, VARIABLES + i);
        put_front(out, i);
        put_one(
            out,
            names,
            is_wanted(sent, flags, bound, v),
            bound,
            values,
            v,
        );
    }
}

fn put_front(out: &mut Out, i: usize) {
    if i == 0 {
        out.put(b": ");
    } else {
        out.put(b", ");
    }
}

// Operation and partner of a send whose partner a variable holds: that partner, where there is one, else the variable and what is in it.
fn put_to_held(
    out: &mut Out,
    names: &[u8; 16896],
    table: &Table,
    n: usize,
    bound: &[u8; 16],
    values: &[u32; 16],
) {
    let operation = entry(table, n, OPERATION);
    let v = entry(table, n, VARIABLE);
    let held = value_in(bound, values, v);
    if 0 < held {
        if held < 65 {
            put_exchange(out, names, false, (held - 1) as u32, operation);
            return;
        }
    }
    put_operation(out, names, operation);
    out.put(b" to the partner in ");
    put_one(out, names, true, bound, values, v);
}

// Operation and partner of row n, a send or, where it is not `sent`, a receive or an arm.
fn put_whom(
    out: &mut Out,
    names: &[u8; 16896],
    table: &Table,
    n: usize,
    sent: bool,
    bound: &[u8; 16],
    values: &[u32; 16],
) {
    if entry(table, n, KIND) == kind::HELD_SEND {
        put_to_held(out, names, table, n, bound, values);
    } else {
        put_exchange(
            out,
            names,
            !sent,
            entry(table, n, PARTNER),
            entry(table, n, OPERATION),
        );
    }
}

// Whom the send in row n says to reply to, where it names one; and where the receive in row n stores whom to reply to.
fn put_replying(out: &mut Out, names: &[u8; 16896], table: &Table, n: usize) {
    match entry(table, n, KIND) {
        kind::HELD_SEND => {
            let reply = entry(table, n, PARTNER);
            if reply != 0 {
                put_reply(out, names, reply);
            }
        }
        kind::ASKING_RECEIVE => {
            out.put(b"; reply to into ");
            put_variable(out, names, entry(table, n, VARIABLE));
        }
        _ => {}
    }
}

// Operation, partner and tuple of row n, with the values of an order, and what it has to do with whom to reply to.
fn put_tuple(
    out: &mut Out,
    names: &[u8; 16896],
    table: &Table,
    flags: &[u8; 16],
    n: usize,
    sent: bool,
    bound: &[u8; 16],
    values: &[u32; 16],
) {
    put_whom(out, names, table, n, sent, bound, values);
    put_member(out, names, table, flags, n, sent, bound, values, 0);
    put_member(out, names, table, flags, n, sent, bound, values, 1);
    put_member(out, names, table, flags, n, sent, bound, values, 2);
    put_member(out, names, table, flags, n, sent, bound, values, 3);
    put_replying(out, names, table, n);
}

// What `fault_of` answers of a send that sends: no send makes a plain raise.
pub const SENDS: u8 = fault::PLAIN_RAISE;

// The fault that the send in row n makes by these variables: an unbound one before a partner that there is not.
pub fn fault_of(table: &Table, n: usize, bound: &[u8; 16], values: &[u32; 16]) -> u8 {
    if 256 <= n {
        return SENDS;
    }
    if !order::sending::all_bound(table, n, bound) {
        return fault::UNBOUND_VARIABLE;
    }
    if order::sending::may_send(table, n, bound, values) {
        return SENDS;
    }
    fault::NO_SUCH_PARTNER
}

// Behind what a send sends or would send, its fault. A variable that is not bound is told where it stands.
pub fn put_sending_fault(out: &mut Out, names: &[u8; 16896], cause: u8) {
    if cause == fault::NO_SUCH_PARTNER {
        put_by_fault(out, names, cause);
    }
}

// What the send in row n sends.
pub fn put_sent(
    out: &mut Out,
    names: &[u8; 16896],
    table: &Table,
    flags: &[u8; 16],
    n: usize,
    bound: &[u8; 16],
    values: &[u32; 16],
) {
    put_tuple(out, names, table, flags, n, true, bound, values);
}

// What the receive or arm in row n asks for: of what is for correlation the value that is known.
pub fn put_known(
    out: &mut Out,
    names: &[u8; 16896],
    table: &Table,
    flags: &[u8; 16],
    n: usize,
    bound: &[u8; 16],
    values: &[u32; 16],
) {
    put_tuple(out, names, table, flags, n, false, bound, values);
}
