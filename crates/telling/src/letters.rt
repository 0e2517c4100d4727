// A message by the names of the plan that takes it or sent it.
use drawing::{Out, entry, put_operation, put_partner, put_variable};
use machine::Message;
use plan::kind;
use plan::table::{COUNT, KIND, OPERATION, PARTNER, Table, VARIABLES};

// Whether row n is a receive or an arm.
fn is_receive(table: &Table, n: usize) -> bool {
    matches!(
        entry(table, n, KIND),
        kind::RECEIVE | kind::ASKING_RECEIVE | kind::ARM
    )
}

// Whether row n receives on a partner.
fn receives_on(table: &Table, n: usize, partner: u32) -> bool {
    is_receive(table, n) && entry(table, n, PARTNER) == partner
}

// Whether the plan receives on a partner. What is sent to any other leaves.
pub fn is_received(table: &Table, activities: usize, partner: u32) -> bool {
    (0..activities).any(|n| receives_on(table, n, partner))
}

// Whether row n sends to a partner: one whose partner a variable holds may send to any.
fn sends_to(table: &Table, n: usize, partner: u32) -> bool {
    match entry(table, n, KIND) {
        kind::SEND => entry(table, n, PARTNER) == partner,
        kind::HELD_SEND => true,
        _ => false,
    }
}

// Whether row n, a send or, where `receiving`, a receive, is of this partner, operation and count.
fn is_of(
    table: &Table,
    n: usize,
    receiving: bool,
    partner: u32,
    operation: u32,
    count: u32,
) -> bool {
    let with = if receiving {
        receives_on(table, n, partner)
    } else {
        sends_to(table, n, partner)
    };
    with && entry(table, n, OPERATION) == operation && entry(table, n, COUNT) == count
}

// Whether a receive of the plan takes such messages.
pub fn is_taken(
    table: &Table,
    activities: usize,
    partner: u32,
    operation: u32,
    count: u32,
) -> bool {
    (0..activities).any(|n| is_of(table, n, true, partner, operation, count))
}

// The one variable that stands in this field of all rows of this kind, partner, operation and count, where they have one.
fn variable_at(
    table: &Table,
    activities: usize,
    receiving: bool,
    m: Message,
    field: usize,
) -> Option<u32> {
    let mut variable = None;
    for n in 0..activities {
        if is_of(table, n, receiving, m.partner, m.operation, m.count) {
            let here = entry(table, n, field);
            match variable {
                Some(before) if before != here => return None,
                _ => variable = Some(here),
            }
        }
    }
    variable.filter(|v| *v < 16)
}

// Value i of a message, by its variable where it has one.
fn put_value(out: &mut Out, names: &[u8; 16896], variable: Option<u32>, front: &[u8], value: u32) {
    out.put(front);
    if let Some(v) = variable {
        put_variable(out, names, v);
        out.put_byte(b' ');
    }
    out.put_number(u64::from(value));
}

// Operation and partner, where the partner speaks to us or we to it.
pub fn put_exchange(
    out: &mut Out,
    names: &[u8; 16896],
    receiving: bool,
    partner: u32,
    operation: u32,
) {
    put_operation(out, names, operation);
    if receiving {
        out.put(b" from ");
    } else {
        out.put(b" to ");
    }
    put_partner(out, names, partner);
}

// The values of a message, each by the variable that stands in its place in the rows.
fn put_values(
    out: &mut Out,
    names: &[u8; 16896],
    table: &Table,
    activities: usize,
    receiving: bool,
    m: Message,
) {
    let many = (m.count as usize).max(1);
    for (i, value) in m.values.iter().enumerate().take(many) {
        let front: &[u8] = if i == 0 { b": " } else { b", " };
        let variable = variable_at(table, activities, receiving, m, VARIABLES + i);
        put_value(out, names, variable, front, *value);
    }
}

// Whether row n takes messages like m, and stores whom to reply to.
fn is_storing(table: &Table, n: usize, m: Message) -> bool {
    entry(table, n, KIND) == kind::ASKING_RECEIVE
        && is_of(table, n, true, m.partner, m.operation, m.count)
}

// Whether it matters whom to reply to: partner 0, which is also what a message has that names nobody, only where a receive of the plan stores it.
fn is_reply_told(table: &Table, activities: usize, m: Message) -> bool {
    m.reply != 0 || (0..activities).any(|n| is_storing(table, n, m))
}

// Behind a message, whom to reply to.
pub(crate) fn put_reply(out: &mut Out, names: &[u8; 16896], reply: u32) {
    out.put(b"; reply to ");
    put_partner(out, names, reply);
}

// A message: operation, partner and values, and whom to reply to, where that matters.
pub fn put_letter(
    out: &mut Out,
    names: &[u8; 16896],
    table: &Table,
    activities: usize,
    m: Message,
) {
    let receiving = is_received(table, activities, m.partner);
    put_exchange(out, names, receiving, m.partner, m.operation);
    put_values(out, names, table, activities, receiving, m);
    if is_reply_told(table, activities, m) {
        put_reply(out, names, m.reply);
    }
}
