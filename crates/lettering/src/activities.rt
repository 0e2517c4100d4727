// An accepted plan in words, by its table: an activity or arm on each line.
use super::Plan;
use super::expressions::put_expression;
use super::naming::{
    put_fault_name, put_member, put_operation, put_partner, put_scope_name, put_variable,
};
use super::sink::Sink;
use super::table::{depth_of, is_scope, number_at, numbers_of, order_of, parent_of, scopes_before};
use plan::kind;
use plan::table::{
    COUNT, EXPRESSION, KIND, NUMBER, OPERATION, PARTNER, Table, VARIABLE, VARIABLES,
};

// What part of scope s an activity is, by its order there: the body, a fault part for each of its numbers, the general one, the undo part.
fn put_scope_part<S: Sink>(out: &mut S, plan: Plan, s: usize, order: usize) {
    let many = numbers_of(plan.table, s);
    if order == 0 {
        out.put(b"body: ");
    } else if order <= many {
        out.put(b"fault part ");
        put_fault_name(out, plan.names, b"", number_at(plan.table, s, order - 1));
        out.put(b": ");
    } else if order - many == 1 {
        out.put(b"fault part: ");
    } else {
        out.put(b"undo part: ");
    }
}

// What part of activity m, a scope or a choose, an activity is, by its order there.
fn put_part<S: Sink>(out: &mut S, plan: Plan, m: usize, order: usize) {
    match plan.entry(m, KIND) {
        kind::CHOOSE if order == 0 => out.put(b"then: "),
        kind::CHOOSE => out.put(b"else: "),
        kind if is_scope(kind) => put_scope_part(out, plan, m, order),
        _ => {}
    }
}

fn put_role<S: Sink>(out: &mut S, plan: Plan, n: usize) {
    match parent_of(plan.table, n) {
        Some(parent) => put_part(out, plan, parent, order_of(plan.table, parent, n)),
        None if n == 0 => out.put(b"root body: "),
        None => out.put(b"root fault part: "),
    }
}

// A variable of the plan, marked where it is for correlation.
fn put_marked<S: Sink>(out: &mut S, plan: Plan, number: u32) {
    put_member(out, plan.names, plan.correlation, number);
}

// Operation and variables of row n, after whom the message is for or from. (A tuple has a variable at least, and four at most.)
fn put_about<S: Sink>(out: &mut S, plan: Plan, n: usize) {
    out.put(b", operation ");
    put_operation(out, plan.names, plan.entry(n, OPERATION));
    out.put(b": ");
    put_marked(out, plan, plan.entry(n, VARIABLES));
    for i in 1..4 {
        if i < plan.entry(n, COUNT) as usize {
            out.put(b", ");
            put_marked(out, plan, plan.entry(n, VARIABLES + i));
        }
    }
}

// Partner, operation and variables of row n, after the words that say what is done.
fn put_exchange<S: Sink>(out: &mut S, words: &[u8], plan: Plan, n: usize) {
    out.put(words);
    put_partner(out, plan.names, plan.entry(n, PARTNER));
    put_about(out, plan, n);
}

// A send to the partner that a variable holds, and whom it asks to reply to: nothing is said of 0, which every other send carries.
fn put_held_send<S: Sink>(out: &mut S, plan: Plan, n: usize) {
    out.put(b"send to the partner in ");
    put_marked(out, plan, plan.entry(n, VARIABLE));
    put_about(out, plan, n);
    let reply = plan.entry(n, PARTNER);
    if reply != 0 {
        out.put(b" with reply to partner ");
        put_partner(out, plan.names, reply);
    }
}

// A receive that stores whom to reply to.
fn put_asking_receive<S: Sink>(out: &mut S, plan: Plan, n: usize) {
    put_exchange(out, b"receive from partner ", plan, n);
    out.put(b" with reply to into ");
    put_variable(out, plan.names, plan.entry(n, VARIABLE));
}

// Words, and then the expression of row n.
fn put_with_expression<S: Sink>(out: &mut S, words: &[u8], plan: Plan, n: usize) {
    out.put(words);
    let first = plan.entry(n, EXPRESSION) as usize;
    put_expression(out, plan, first, 8, false);
}

fn put_set<S: Sink>(out: &mut S, plan: Plan, n: usize) {
    out.put(b"set ");
    put_variable(out, plan.names, plan.entry(n, VARIABLE));
    put_with_expression(out, b" to ", plan, n);
}

// Scope n, with the name that it may have.
fn put_named_scope<S: Sink>(out: &mut S, plan: Plan, n: usize) {
    out.put(b"scope");
    put_scope_name(out, plan.names, scopes_before(plan.table, n), b" ", b"");
}

// Scope n by its number, and by the name that it may have: `scope 6 (stock)`.
pub fn put_scope<S: Sink>(out: &mut S, names: &[u8; 16896], table: &Table, n: usize) {
    out.put(b"scope");
    out.put_next(n as u64);
    put_scope_name(out, names, scopes_before(table, n), b" (", b")");
}

// A raise with its number, or the name of that.
fn put_raise<S: Sink>(out: &mut S, plan: Plan, n: usize) {
    out.put(b"raise ");
    put_fault_name(out, plan.names, b"", plan.entry(n, NUMBER));
}

// What the table of no accepted plan has.
fn put_unknown<S: Sink>(out: &mut S, kind: u32) {
    out.put(b"unknown kind ");
    out.put_number(u64::from(kind));
}

// Activity or arm n in words.
pub fn put_activity<S: Sink>(out: &mut S, plan: Plan, n: usize) {
    match plan.entry(n, KIND) {
        kind::EMPTY => out.put(b"empty"),
        kind::SEND => put_exchange(out, b"send to partner ", plan, n),
        kind::HELD_SEND => put_held_send(out, plan, n),
        kind::RECEIVE => put_exchange(out, b"receive from partner ", plan, n),
        kind::ASKING_RECEIVE => put_asking_receive(out, plan, n),
        kind::SET => put_set(out, plan, n),
        kind::RAISE => out.put(b"raise"),
        kind::NUMBERED_RAISE => put_raise(out, plan, n),
        kind::LEAVE => out.put(b"leave"),
        kind::CHOOSE => put_with_expression(out, b"choose by ", plan, n),
        kind::REPEAT => put_with_expression(out, b"repeat while ", plan, n),
        kind::SEQUENCE => out.put(b"sequence"),
        kind::FLOW => out.put(b"flow"),
        kind::PICK => out.put(b"pick"),
        kind::SCOPE | kind::OPEN_SCOPE | kind::NUMBERED_SCOPE => put_named_scope(out, plan, n),
        kind::ARM => put_exchange(out, b"arm: receive from partner ", plan, n),
        kind => put_unknown(out, kind),
    }
}

// What part activity n is, and what it is.
pub fn put_labelled<S: Sink>(out: &mut S, plan: Plan, n: usize) {
    put_role(out, plan, n);
    put_activity(out, plan, n);
}

// Where activity n stands in the drawing, what part it is, and what it is.
pub fn put_drawn<S: Sink>(out: &mut S, plan: Plan, n: usize) {
    for _ in 0..depth_of(plan.table, n) {
        out.put(b"  ");
    }
    put_labelled(out, plan, n);
    out.put_byte(b'\n');
}

// All activities and arms, a line for each, with its number in front.
pub(crate) fn put_activities<S: Sink>(out: &mut S, plan: Plan, activities: usize) {
    for n in 0..activities {
        out.put_aligned(n as u64);
        out.put(b"  ");
        put_drawn(out, plan, n);
    }
}

// All activities and arms, and a blank line.
pub fn put_drawing<S: Sink>(out: &mut S, plan: Plan, activities: usize) {
    put_activities(out, plan, activities);
    out.put_byte(b'\n');
}
