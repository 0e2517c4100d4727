// Why orders stand as they do: what each waits for, which message nearly fits, what is held and by what, what would be undone; and the messages that
// nobody can take. Each function puts words into an `Out`, behind what it has.
#![tactic(auto)]

mod holding;
mod near;
mod rows;
pub mod strays;
mod undo;

use drawing::{Out, put_variable};
use machine::State;
use order::Order;
use plan::Accepted;
use plan::table::{LENGTH, Table};
use telling::value_in;
pub use undo::put_undone;

// A variable that is for correlation, where it is bound.
fn put_key(out: &mut Out, names: &[u8; 16896], flag: u8, variable: u32, known: u64) {
    if flag != 1 {
        return;
    }
    if known != 0 {
        out.put(b", ");
        put_variable(out, names, variable);
        out.put_next(known - 1);
    }
}

// What an order is known by: its variables for correlation.
fn put_keys(
    out: &mut Out,
    names: &[u8; 16896],
    flags: &[u8; 16],
    bound: &[u8; 16],
    values: &[u32; 16],
) {
    for (v, flag) in flags.iter().enumerate() {
        put_key(
            out,
            names,
            *flag,
            v as u32,
            value_in(bound, values, v as u32),
        );
    }
}

// What an order is called: by its slot, and what it is known by.
pub fn put_called(out: &mut Out, names: &[u8; 16896], flags: &[u8; 16], slot: usize, order: Order) {
    let bound = order.bound;
    let values = order.values;
    out.put(b"order");
    out.put_next(slot as u64);
    put_keys(out, names, flags, &bound, &values);
}

// What an order does and waits for, and, where its root faulted, by which fault: a line each.
pub fn put_doings(
    out: &mut Out,
    names: &[u8; 16896],
    table: &Table,
    flags: &[u8; 16],
    picks: &[usize; 256],
    activities: usize,
    state: State,
    order: Order,
) {
    rows::put_root_faulted(out, names, table, order.root, order.cause);
    rows::put_rows(out, names, table, flags, picks, activities, state, order);
}

// One order.
fn put_order(
    out: &mut Out,
    names: &[u8; 16896],
    table: &Table,
    flags: &[u8; 16],
    picks: &[usize; 256],
    activities: usize,
    state: State,
    slot: usize,
    order: Order,
) {
    put_called(out, names, flags, slot, order);
    out.put_byte(b'\n');
    put_doings(out, names, table, flags, picks, activities, state, order);
    undo::put_undo(out, names, table, flags, order);
}

// Whether an order is asked for: it is live, and it is this one or all are, which slot 16 says.
fn is_asked(only: usize, slot: usize, root: u8) -> bool {
    root != 0 && (only == slot || only == 16)
}

fn put_orders(
    out: &mut Out,
    names: &[u8; 16896],
    table: &Table,
    flags: &[u8; 16],
    picks: &[usize; 256],
    activities: usize,
    state: State,
    only: usize,
) {
    for (slot, order) in state.orders.iter().enumerate() {
        if is_asked(only, slot, order.root) {
            put_order(
                out, names, table, flags, picks, activities, state, slot, *order,
            );
        }
    }
}

// The orders, then the messages; a blank line.
fn put_all(
    out: &mut Out,
    names: &[u8; 16896],
    table: &Table,
    flags: &[u8; 16],
    activities: usize,
    state: State,
    only: usize,
) {
    let picks = fit::search::picks_of(table);
    put_orders(out, names, table, flags, &picks, activities, state, only);
    if only == 16 {
        strays::put_strays(out, names, table, flags, &picks, activities, state, false);
    }
    out.put_byte(b'\n');
}

// Why the order in a slot stands as it does, or all of them where the slot is 16, in a state that has a plan.
pub fn put_why(out: &mut Out, names: &[u8; 16896], state: State, only: usize) {
    let mut table = [0u32; LENGTH];
    let mut flags = [0u8; 16];
    let a = machine::limits::planned(state, &mut table, &mut flags);
    match a {
        Err(_) => {}
        Ok(Accepted { activities, .. }) => put_all(
            out, names, &table, &flags, activities, state, only,
        ),
    }
}

// Row n of the order in a slot, where its step is held.
fn put_held_row(
    out: &mut Out,
    names: &[u8; 16896],
    table: &Table,
    flags: &[u8; 16],
    picks: &[usize; 256],
    activities: usize,
    state: State,
    slot: usize,
    order: Order,
    n: usize,
) {
    if holding::is_held(table, picks, activities, state.waiting, order, n) {
        put_called(out, names, flags, slot, order);
        rows::put_row(out, names, table, flags, picks, n, true, state, order);
    }
}

fn put_held_rows(
    out: &mut Out,
    names: &[u8; 16896],
    table: &Table,
    flags: &[u8; 16],
    picks: &[usize; 256],
    activities: usize,
    state: State,
    slot: usize,
    order: Order,
) {
    for n in 0..activities {
        put_held_row(
            out, names, table, flags, picks, activities, state, slot, order, n,
        );
    }
}

// What is held, a line each: the steps of live orders, then the messages that would start one.
pub fn put_held(
    out: &mut Out,
    names: &[u8; 16896],
    table: &Table,
    flags: &[u8; 16],
    picks: &[usize; 256],
    activities: usize,
    state: State,
) {
    for (slot, order) in state.orders.iter().enumerate() {
        if order.root != 0 {
            put_held_rows(
                out, names, table, flags, picks, activities, state, slot, *order,
            );
        }
    }
    strays::put_strays(out, names, table, flags, picks, activities, state, true);
}
