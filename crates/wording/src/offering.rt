// What is offered: as numbers, and in words.
use super::holding::put_full;
use super::messages::put_taken;
use drawing::{Out, Plan, entry, is_scope, put_activity};
use machine::{Message, State};
use offer::Offered;
use order::Order;
use plan::table::{KIND, LENGTH, Table};
use plan::{Answer, kind};

// A command word, how much is offered, and whether something is held.
fn put_count(out: &mut Out, word: &[u8], o: Offered) {
    out.put(word);
    out.put_next(o.many as u64);
    if o.held {
        out.put(b" held");
    } else {
        out.put(b" free");
    }
}

// The slot, the activity and the message place of a step, from its number.
fn slot_of(x: u64) -> usize {
    (x / 16777216 % 256) as usize
}

fn activity_of(x: u64) -> usize {
    (x / 65536 % 256) as usize
}

fn place_of(x: u64) -> usize {
    (x / 256 % 256) as usize
}

// A step as numbers.
fn put_step(out: &mut Out, x: u64) {
    out.put_next(slot_of(x) as u64);
    out.put_byte(b':');
    out.put_number(activity_of(x) as u64);
    out.put_byte(b':');
    out.put_number(place_of(x) as u64);
}

// A choice as `list` takes it; no offer has so many that one is beyond it.
fn choice_of(x: usize) -> u32 {
    u32::try_from(x).unwrap_or(u32::MAX)
}

// The steps of a window, as numbers.
fn put_window(out: &mut Out, window: &[u64; 256], many: usize) {
    for x in window.iter().take(many) {
        put_step(out, *x);
    }
}

// The steps from a choice on, as numbers, no more than a window holds.
fn put_from(out: &mut Out, state: State, first: u32, many: usize) {
    let mut window = [0u64; 256];
    listing::list(state, first, &mut window);
    put_window(out, &window, many);
}

// The steps as numbers, window by window: to ask for each by itself takes a pass over the offer each time.
fn put_steps(out: &mut Out, state: State, many: usize) {
    for start in (0..many).step_by(256) {
        put_from(out, state, choice_of(start), (many - start).min(256));
    }
}

// All that is offered, as numbers.
pub fn put_offer(out: &mut Out, state: State) {
    let o = offer::offers(state);
    if o.refusal != 0 {
        out.put_refusal(b"offer", o.refusal);
    } else {
        put_count(out, b"offer", o);
        put_steps(out, state, o.many);
        out.put_byte(b'\n');
    }
}

fn is_live(orders: [Order; 16], slot: usize) -> bool {
    if slot < 16 {
        let order = orders[slot];
        return order.root != 0;
    }
    false
}

// Which order a step is of; one that it starts is new.
fn put_whose(out: &mut Out, orders: [Order; 16], slot: usize) {
    if is_live(orders, slot) {
        out.put(b"order");
        out.put_next(slot as u64);
    } else {
        out.put(b"new order");
        out.put_next(slot as u64);
    }
}

// The activity of a step, as the drawing says it. A scope's step is to close.
fn put_what(out: &mut Out, names: &[u8; 16896], table: &Table, flags: &[u8; 16], n: usize) {
    out.put(b", activity");
    out.put_next(n as u64);
    out.put(b": ");
    if is_scope(entry(table, n, KIND)) {
        out.put(b"close ");
    }
    let plan = Plan {
        names,
        table,
        correlation: flags,
    };
    put_activity(out, plan, n);
}

// The message that a step takes, if it takes one.
fn put_which(out: &mut Out, names: &[u8; 16896], kind: u32, messages: [Message; 64], place: usize) {
    match kind {
        kind::RECEIVE | kind::ARM => put_taken(out, names, messages, place, false),
        kind::ASKING_RECEIVE => put_taken(out, names, messages, place, true),
        _ => {}
    }
}

// A step in words.
fn put_choice(
    out: &mut Out,
    names: &[u8; 16896],
    table: &Table,
    flags: &[u8; 16],
    state: State,
    choice: u64,
    x: u64,
) {
    let orders = state.orders;
    let messages = state.messages;
    let n = activity_of(x);
    out.put_aligned(choice);
    out.put(b"  ");
    put_whose(out, orders, slot_of(x));
    put_what(out, names, table, flags, n);
    put_which(out, names, entry(table, n, KIND), messages, place_of(x));
    out.put_byte(b'\n');
}

// The steps of a window, in words.
fn put_worded(
    out: &mut Out,
    names: &[u8; 16896],
    table: &Table,
    flags: &[u8; 16],
    state: State,
    window: &[u64; 256],
    first: u32,
    many: usize,
) {
    for (i, x) in window.iter().enumerate().take(many) {
        put_choice(
            out,
            names,
            table,
            flags,
            state,
            u64::from(first) + i as u64,
            *x,
        );
    }
}

// The steps from a choice on, in words, no more than a window holds.
fn put_worded_from(
    out: &mut Out,
    names: &[u8; 16896],
    table: &Table,
    flags: &[u8; 16],
    state: State,
    first: u32,
    many: usize,
) {
    let mut window = [0u64; 256];
    listing::list(state, first, &mut window);
    put_worded(out, names, table, flags, state, &window, first, many);
}

// The steps in words, window by window.
fn put_choices(
    out: &mut Out,
    names: &[u8; 16896],
    table: &Table,
    flags: &[u8; 16],
    state: State,
    many: usize,
) {
    for start in (0..many).step_by(256) {
        put_worded_from(
            out,
            names,
            table,
            flags,
            state,
            choice_of(start),
            (many - start).min(256),
        );
    }
}

// All that is offered, in words; where something is held, what has no room left; and a blank line.
pub fn put_offers(out: &mut Out, names: &[u8; 16896], state: State) {
    let mut table = [0u32; LENGTH];
    let mut flags = [0u8; 16];
    let o = offer::offers(state);
    let a = machine::limits::planned(state, &mut table, &mut flags);
    match a {
        Err(_) => out.put_refusal(b"offers", 17),
        Ok(_) => {
            put_count(out, b"offers", o);
            out.put_byte(b'\n');
            put_choices(out, names, &table, &flags, state, o.many);
            if o.held {
                put_full(out, state);
            }
            out.put_byte(b'\n');
        }
    }
}
