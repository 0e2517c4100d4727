// The messages that no receive of the plan can ever take, and those that no order can take now.
use drawing::Out;
use machine::{Message, State};
use order::Order;
use plan::table::Table;
use telling::{is_received, is_taken, put_letter};

// Whether an order as it starts would take message j.
fn starts(
    table: &Table,
    flags: &[u8; 16],
    picks: &[usize; 256],
    activities: usize,
    letters: &[u32; 512],
    j: usize,
) -> bool {
    let order = beginning::started_order(table);
    let known = fit::fitness::known_of(flags, order);
    (0..activities).any(|n| {
        fit::search::takes_at(table, picks, &order.marks, &known, n, letters, j)
    })
}

fn put_message(
    out: &mut Out,
    names: &[u8; 16896],
    table: &Table,
    activities: usize,
    j: usize,
    m: Message,
    why: &[u8],
) {
    out.put(b"message");
    out.put_next(j as u64);
    out.put(b", ");
    put_letter(out, names, table, activities, m);
    out.put(why);
}

// What becomes of a message: it leaves, no receive of the plan takes it, no order takes it now, an order takes it, it starts one, or it would and is held.
#[derive(Clone, Copy, PartialEq, Eq)]
pub enum Fate {
    Leaves,
    Untaken,
    Later,
    Taken,
    Starts,
    Held,
}

// What becomes of message j, by the letters of all that wait (fit::letters).
pub fn fate_of(
    table: &Table,
    flags: &[u8; 16],
    picks: &[usize; 256],
    activities: usize,
    orders: [Order; 16],
    letters: &[u32; 512],
    j: usize,
    m: Message,
) -> Fate {
    if !is_received(table, activities, m.partner) {
        Fate::Leaves
    } else if !is_taken(table, activities, m.partner, m.operation, m.count) {
        Fate::Untaken
    } else if fit::search::first_receiver(
        table, flags, picks, orders, activities, letters, j,
    ).is_some()
    {
        Fate::Taken
    } else if !starts(table, flags, picks, activities, letters, j) {
        Fate::Later
    } else if is_full(&orders) {
        Fate::Held
    } else {
        Fate::Starts
    }
}

// Whether no slot is free.
fn is_full(orders: &[Order; 16]) -> bool {
    orders.iter().all(|order| order.root != 0)
}

// Message j by its fate, where nobody takes it; where only what is held is asked for, where that is its fate.
fn put_stray(
    out: &mut Out,
    names: &[u8; 16896],
    table: &Table,
    activities: usize,
    held_alone: bool,
    fate: Fate,
    j: usize,
    m: Message,
) {
    if fate == Fate::Held {
        put_message(
            out,
            names,
            table,
            activities,
            j,
            m,
            b": it would start an order: held, since 16 orders are live\n",
        );
    } else if !held_alone {
        put_untaken(out, names, table, activities, fate, j, m);
    }
}

fn put_untaken(
    out: &mut Out,
    names: &[u8; 16896],
    table: &Table,
    activities: usize,
    fate: Fate,
    j: usize,
    m: Message,
) {
    match fate {
        Fate::Untaken => put_message(
            out,
            names,
            table,
            activities,
            j,
            m,
            b": no receive of the plan takes it\n",
        ),
        Fate::Later => put_message(
            out,
            names,
            table,
            activities,
            j,
            m,
            b": no order takes it now\n",
        ),
        Fate::Leaves | Fate::Taken | Fate::Starts | Fate::Held => {}
    }
}

// The messages that nobody takes; or those that are held alone.
pub(crate) fn put_strays(
    out: &mut Out,
    names: &[u8; 16896],
    table: &Table,
    flags: &[u8; 16],
    picks: &[usize; 256],
    activities: usize,
    state: State,
    held_alone: bool,
) {
    let letters = fit::letters::letters_of(state.messages, state.waiting);
    for (j, m) in state.messages.iter().enumerate().take(state.waiting) {
        let fate = fate_of(
            table,
            flags,
            picks,
            activities,
            state.orders,
            &letters,
            j,
            *m,
        );
        put_stray(out, names, table, activities, held_alone, fate, j, *m);
    }
}
