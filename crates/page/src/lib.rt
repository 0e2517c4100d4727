// The state of the desk as one HTML page, which needs no server and no script: what is held, the orders with what each waits for, the messages, and each
// order on the drawing of its plan. All words come from the crates that tell the same on the console. Each function puts words into
// an `Out` of a page (drawing/src/output.rt), behind what it has.
#![tactic(auto)]

mod boxes;
mod head;
mod messages;
mod orders;
mod sizes;

use boxes::put_boxes;
use drawing::{Out, Plan, put_drawing, put_names};
use machine::{State, Tally};
use plan::Accepted;
use plan::table::{LENGTH, Table};

// How many bytes every page of the desk begins with, as no other file does.
pub const FRONT: usize = 44;

// Whether the first bytes of a file are those.
pub fn is_front(bytes: &[u8]) -> bool {
    text::same(bytes, b"<!DOCTYPE html>\n<!-- a page of the desk -->\n")
}

// What is held, in a red band; nothing where nothing is.
fn put_held(
    out: &mut Out,
    names: &[u8; 16896],
    table: &Table,
    flags: &[u8; 16],
    picks: &[usize; 256],
    activities: usize,
    state: State,
) {
    let o = offer::offers(state);
    if !o.held {
        return;
    }
    out.put_markup(
        b"<section id=\"held\" class=\"held\" role=\"alert\">\n<h2>Held for want of room</h2>\n<p class=\"lines\">",
    );
    wording::put_full(out, state);
    why::put_held(out, names, table, flags, picks, activities, state);
    out.put_markup(b"</p>\n</section>\n");
}

// The plan as it is drawn, while no order stands on it.
fn put_idle_plan(
    out: &mut Out,
    names: &[u8; 16896],
    table: &Table,
    flags: &[u8; 16],
    activities: usize,
    state: State,
) {
    let orders = state.orders;
    if wording::live_of(orders) != 0 {
        return;
    }
    let order = machine::made::no_order();
    out.put_markup(b"<div class=\"picture\">");
    put_boxes(out, names, table, flags, activities, order);
    out.put_markup(b"</div>\n");
}

// The plan as text, as the desk draws it.
fn put_plan(
    out: &mut Out,
    names: &[u8; 16896],
    table: &Table,
    flags: &[u8; 16],
    variables: u32,
    activities: usize,
    state: State,
) {
    out.put_markup(b"<section id=\"plan\">\n<h2>The plan</h2>\n");
    put_idle_plan(out, names, table, flags, activities, state);
    out.put_markup(b"<details>\n<summary>The plan as text</summary>\n<pre>");
    put_names(out, names, flags, variables);
    let plan = Plan {
        names,
        table,
        correlation: flags,
    };
    put_drawing(out, plan, activities);
    out.put_markup(b"</pre>\n</details>\n</section>\n");
}

fn put_planned(
    out: &mut Out,
    names: &[u8; 16896],
    table: &Table,
    flags: &[u8; 16],
    variables: u32,
    activities: usize,
    state: State,
) {
    let picks = fit::search::picks_of(table);
    put_held(out, names, table, flags, &picks, activities, state);
    orders::put_list(out, names, table, flags, &picks, activities, state);
    messages::put_messages(out, names, table, flags, &picks, activities, state);
    orders::put_orders(out, names, table, flags, variables, activities, state);
    put_plan(out, names, table, flags, variables, activities, state);
}

fn put_planless(out: &mut Out) {
    out.put_markup(b"<section id=\"plan\">\n<h2>The plan</h2>\n<p>");
    out.put(b"There is no plan: no order can start.");
    out.put_markup(b"</p>\n</section>\n");
}

// What a state holds.
fn put_state(out: &mut Out, names: &[u8; 16896], state: State) {
    let mut table = [0u32; LENGTH];
    let mut flags = [0u8; 16];
    let a = machine::limits::planned(state, &mut table, &mut flags);
    match a {
        Err(_) => put_planless(out),
        Ok(
            Accepted {
                variables,
                activities,
                ..
            },
        ) => put_planned(out, names, &table, &flags, variables, activities, state),
    }
}

// The whole page.
pub fn put_page(out: &mut Out, names: &[u8; 16896], state: State, tally: Tally) {
    head::put_head(out, state, tally);
    put_state(out, names, state);
    out.put_markup(b"</main>\n</body>\n</html>\n");
}
