// An order on the drawing of its plan, as boxes within boxes: what runs is marked, and so is what would be undone.
use super::sizes;
use drawing::{Out, Plan, put_labelled};
use order::Order;
use plan::table::Table;
use wording::doing::{self, Doing};

// How a box is marked, by what its activity does.
fn put_class(out: &mut Out, doing: Doing) {
    match doing {
        Doing::Idle => out.put_markup(b"idle"),
        Doing::Done => out.put_markup(b"done"),
        Doing::Running => out.put_markup(b"run"),
        Doing::Waiting => out.put_markup(b"wait"),
        Doing::Remembered => out.put_markup(b"kept"),
        Doing::Stopped => out.put_markup(b"stop"),
        Doing::Faulted | Doing::Undoing | Doing::Handling | Doing::StoppedUndoing | Doing::Undone =>
            out.put_markup(b"fault"),
        Doing::ToSend
        | Doing::ToSet
        | Doing::ToRaise
        | Doing::ToLeave
        | Doing::ToDecide
        | Doing::ToClose
        | Doing::Unknown => out.put_markup(b"ready"),
    }
}

// Whether the closing with this turn, the latest 1, is of scope n.
fn is_turn(order: Order, n: usize, turn: usize) -> bool {
    turn <= order.kept && doing::scope_in(order, order.kept - turn) == n
}

// When the latest closing of scope n would be undone: its number in the list below the drawing, where one is remembered.
fn turn_of(order: Order, n: usize) -> Option<usize> {
    (1..33).find(|turn| is_turn(order, n, *turn))
}

// How many closings of scope n are remembered.
fn times_of(order: Order, n: usize) -> usize {
    (1..33).filter(|turn| is_turn(order, n, *turn)).count()
}

// When the closings of scope n would be undone.
fn put_turn(out: &mut Out, order: Order, n: usize) {
    if let Some(turn) = turn_of(order, n) {
        out.put(b", undo ");
        out.put_number(turn as u64);
        let times = times_of(order, n);
        if times != 1 {
            out.put(b" (");
            out.put_number(times as u64);
            out.put(b" times)");
        }
    }
}

// What activity n does, and when it would be undone.
fn put_state(out: &mut Out, doing: Doing, order: Order, n: usize) {
    doing::put_doing(out, false, doing);
    put_turn(out, order, n);
}

// What stands in the box of row n: its number, and what it is.
fn put_label(out: &mut Out, names: &[u8; 16896], table: &Table, flags: &[u8; 16], n: usize) {
    out.put_number(n as u64);
    out.put(b"  ");
    let plan = Plan {
        names,
        table,
        correlation: flags,
    };
    put_labelled(out, plan, n);
}

fn put_attribute(out: &mut Out, front: &[u8], value: usize) {
    out.put_markup(front);
    out.put_number(value as u64);
    out.put_markup(b"\"");
}

fn put_rectangle(out: &mut Out, table: &Table, n: usize, whole: usize) {
    put_attribute(out, b"<rect x=\"", sizes::left_of(table, n));
    put_attribute(out, b" y=\"", sizes::top_of(table, n));
    put_attribute(out, b" width=\"", sizes::width_of(table, n, whole));
    put_attribute(out, b" height=\"", sizes::height_of(table, n));
    out.put_markup(b" rx=\"5\"/>");
}

fn plus(x: usize, y: usize) -> usize {
    sizes::at_most(x, 100000) + sizes::at_most(y, 100000)
}

fn minus(x: usize, y: usize) -> usize {
    if y < x {
        return x - y;
    }
    0
}

// The right end of what is said of row n.
fn end_of_state(table: &Table, n: usize, whole: usize) -> usize {
    let right = plus(sizes::left_of(table, n), sizes::width_of(table, n, whole));
    minus(right, 8)
}

// The box of row n.
fn put_box(
    out: &mut Out,
    names: &[u8; 16896],
    table: &Table,
    flags: &[u8; 16],
    order: Order,
    n: usize,
    whole: usize,
) {
    let doing = doing::doing_of(table, order, n);
    let line = plus(sizes::top_of(table, n), 17);
    out.put_markup(b"<g class=\"");
    put_class(out, doing);
    out.put_markup(b"\">");
    put_rectangle(out, table, n, whole);
    put_attribute(out, b"<text x=\"", plus(sizes::left_of(table, n), 8));
    put_attribute(out, b" y=\"", line);
    out.put_markup(b">");
    put_label(out, names, table, flags, n);
    put_attribute(
        out,
        b"</text><text class=\"state\" text-anchor=\"end\" x=\"",
        end_of_state(table, n, whole),
    );
    put_attribute(out, b" y=\"", line);
    out.put_markup(b">");
    put_state(out, doing, order, n);
    out.put_markup(b"</text></g>\n");
}

// How wide a drawing must be for row n.
fn width_for(
    like: &Out,
    names: &[u8; 16896],
    table: &Table,
    flags: &[u8; 16],
    order: Order,
    n: usize,
) -> usize {
    let mut label = like.measure();
    put_label(&mut label, names, table, flags, n);
    let mut state = like.measure();
    put_state(&mut state, doing::doing_of(table, order, n), order, n);
    sizes::width_for(table, n, plus(label.len(), state.len()))
}

fn width_of(
    like: &Out,
    names: &[u8; 16896],
    table: &Table,
    flags: &[u8; 16],
    activities: usize,
    order: Order,
) -> usize {
    let mut width = 300;
    for n in 0..activities {
        width = width_for(like, names, table, flags, order, n).max(width);
    }
    width
}

// A drawing of this size.
fn put_opening(out: &mut Out, width: usize, height: usize) {
    out.put_markup(
        b"<svg xmlns=\"http://www.w3.org/2000/svg\" role=\"img\" aria-label=\"The activities of the plan as boxes within boxes, each with what it is doing\"",
    );
    put_attribute(out, b" width=\"", width);
    put_attribute(out, b" height=\"", height);
    out.put_markup(b" viewBox=\"0 0 ");
    out.put_number(width as u64);
    out.put_markup(b" ");
    out.put_number(height as u64);
    out.put_markup(b"\">\n");
}

fn put_rows(
    out: &mut Out,
    names: &[u8; 16896],
    table: &Table,
    flags: &[u8; 16],
    activities: usize,
    order: Order,
    whole: usize,
) {
    for n in 0..activities {
        put_box(out, names, table, flags, order, n, whole);
    }
}

// All boxes.
pub(crate) fn put_boxes(
    out: &mut Out,
    names: &[u8; 16896],
    table: &Table,
    flags: &[u8; 16],
    activities: usize,
    order: Order,
) {
    let whole = width_of(out, names, table, flags, activities, order);
    put_opening(out, whole, sizes::whole_height(activities));
    put_rows(out, names, table, flags, activities, order, whole);
    out.put_markup(b"</svg>");
}
