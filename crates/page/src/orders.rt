// The live orders: a list of what each waits for, and each on the drawing of its plan.
use super::boxes::put_boxes;
use drawing::Out;
use machine::State;
use order::Order;
use plan::table::Table;
use why::{put_called, put_undone};
use wording::put_standing;

// A line of the list.
fn put_line(
    out: &mut Out,
    names: &[u8; 16896],
    table: &Table,
    flags: &[u8; 16],
    picks: &[usize; 256],
    activities: usize,
    state: State,
    slot: usize,
    order: Order,
) {
    out.put_markup(b"<tr><td><a href=\"#order-");
    out.put_number(slot as u64);
    out.put_markup(b"\">");
    put_called(out, names, flags, slot, order);
    out.put_markup(b"</a></td><td>");
    put_standing(out, names, table, order);
    out.put_markup(b"</td><td class=\"lines\">");
    why::put_doings(out, names, table, flags, picks, activities, state, order);
    out.put_markup(b"</td></tr>\n");
}

fn put_lines(
    out: &mut Out,
    names: &[u8; 16896],
    table: &Table,
    flags: &[u8; 16],
    picks: &[usize; 256],
    activities: usize,
    state: State,
) {
    for (slot, order) in state.orders.iter().enumerate() {
        if order.root != 0 {
            put_line(
                out, names, table, flags, picks, activities, state, slot, *order,
            );
        }
    }
}

// The list, where an order is live.
fn put_table(
    out: &mut Out,
    names: &[u8; 16896],
    table: &Table,
    flags: &[u8; 16],
    picks: &[usize; 256],
    activities: usize,
    state: State,
) {
    let orders = state.orders;
    if wording::live_of(orders) == 0 {
        out.put_markup(b"<p>No order is live.</p>\n");
    } else {
        out.put_markup(
            b"<div class=\"scroll\"><table>\n<thead><tr><th>Order</th><th>Stands</th><th>What it waits for and is to do</th></tr></thead>\n<tbody>\n",
        );
        put_lines(out, names, table, flags, picks, activities, state);
        out.put_markup(b"</tbody>\n</table></div>\n");
    }
}

pub(crate) fn put_list(
    out: &mut Out,
    names: &[u8; 16896],
    table: &Table,
    flags: &[u8; 16],
    picks: &[usize; 256],
    activities: usize,
    state: State,
) {
    out.put_markup(b"<section id=\"orders\">\n<h2>Orders</h2>\n");
    put_table(out, names, table, flags, picks, activities, state);
    out.put_markup(b"</section>\n");
}

// The closing in this place, counted from the latest, which is 1.
fn put_closing(
    out: &mut Out,
    names: &[u8; 16896],
    table: &Table,
    flags: &[u8; 16],
    turn: usize,
    order: Order,
) {
    if turn <= order.kept {
        out.put_markup(b"<li class=\"lines\">");
        put_undone(out, names, table, flags, order.kept - turn, order);
        out.put_markup(b"</li>\n");
    }
}

fn put_closings(out: &mut Out, names: &[u8; 16896], table: &Table, flags: &[u8; 16], order: Order) {
    for turn in 1..33 {
        put_closing(out, names, table, flags, turn, order);
    }
}

// What the list is called, by the mark of the root: where that has faulted, what closed for it is undone.
fn put_title(out: &mut Out, root: u8) {
    if 1 < root {
        out.put(b"Still to be undone, in this order");
    } else {
        out.put(b"Would be undone, in this order");
    }
}

// Nothing is remembered.
fn put_nothing(out: &mut Out, root: u8) {
    if 1 < root {
        out.put_markup(b"<p>Nothing more is to be undone.</p>\n");
    } else {
        out.put_markup(b"<p>Nothing would be undone.</p>\n");
    }
}

// What would be undone, the latest first, as the numbers in the boxes count it.
fn put_undo(out: &mut Out, names: &[u8; 16896], table: &Table, flags: &[u8; 16], order: Order) {
    if order.kept == 0 {
        put_nothing(out, order.root);
        return;
    }
    out.put_markup(b"<h3>");
    put_title(out, order.root);
    out.put_markup(b"</h3>\n<ol>\n");
    put_closings(out, names, table, flags, order);
    out.put_markup(b"</ol>\n");
}

// One order.
fn put_order(
    out: &mut Out,
    names: &[u8; 16896],
    table: &Table,
    flags: &[u8; 16],
    variables: u32,
    activities: usize,
    slot: usize,
    order: Order,
) {
    out.put_markup(b"<section class=\"order\" id=\"order-");
    out.put_number(slot as u64);
    out.put_markup(b"\">\n<h2>");
    put_called(out, names, flags, slot, order);
    out.put_markup(b"</h2>\n<p class=\"how\">");
    put_standing(out, names, table, order);
    out.put(b"; ");
    wording::put_variables(out, names, flags, variables, order);
    out.put_markup(b"</p>\n<div class=\"picture\">");
    put_boxes(out, names, table, flags, activities, order);
    out.put_markup(b"</div>\n");
    put_undo(out, names, table, flags, order);
    out.put_markup(b"</section>\n");
}

pub(crate) fn put_orders(
    out: &mut Out,
    names: &[u8; 16896],
    table: &Table,
    flags: &[u8; 16],
    variables: u32,
    activities: usize,
    state: State,
) {
    for (slot, order) in state.orders.iter().enumerate() {
        if order.root != 0 {
            put_order(
                out, names, table, flags, variables, activities, slot, *order,
            );
        }
    }
}
