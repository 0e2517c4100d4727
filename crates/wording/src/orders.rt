// The live orders in words, and one order on the drawing of its plan.
use super::doing::{doing_of, part_in, put_doing, scope_in};
use drawing::{Out, Plan, put_drawn, put_member, put_scope};
use machine::State;
use order::Order;
use plan::Accepted;
use plan::table::{LENGTH, Table};

// The order in a slot; what a free slot holds where there is no such slot.
fn order_in(orders: [Order; 16], slot: usize) -> Order {
    if slot < 16 {
        return orders[slot];
    }
    machine::made::no_order()
}

// How an order stands, by the mark of its root, which has beside it what it says of its fault.
fn put_root(out: &mut Out, root: u8) {
    match root % 16 {
        0 => out.put(b"free"),
        1 => out.put(b"running"),
        4 => out.put(b"faulted"),
        5 => out.put(b"undoing"),
        _ => out.put(b"handling"),
    }
}

// The fault that the root faulted with, where it has faulted: its mark is then neither free nor running.
fn put_cause(out: &mut Out, names: &[u8; 16896], root: u8, cause: u8) {
    if 2 <= root {
        sayings::put_by_fault(out, names, cause);
    }
}

// What stands between two of a list.
fn put_between(out: &mut Out, i: usize) {
    if i != 0 {
        out.put(b", ");
    }
}

// A variable with its value.
fn put_variable(
    out: &mut Out,
    names: &[u8; 16896],
    correlation: &[u8; 16],
    i: usize,
    bound: u8,
    value: u32,
) {
    put_between(out, i);
    if i < 16 {
        put_member(out, names, correlation, i as u32);
    }
    if bound == 1 {
        out.put(b" =");
        out.put_next(value as u64);
    } else {
        out.put(b" unbound");
    }
}

fn put_values(
    out: &mut Out,
    names: &[u8; 16896],
    correlation: &[u8; 16],
    variables: u32,
    bound: &[u8; 16],
    values: &[u32; 16],
) {
    for (i, (is_bound, value)) in bound
        .iter()
        .zip(values)
        .enumerate()
        .take(variables as usize)
    {
        put_variable(out, names, correlation, i, *is_bound, *value);
    }
}

// An order's variables.
pub fn put_variables(
    out: &mut Out,
    names: &[u8; 16896],
    correlation: &[u8; 16],
    variables: u32,
    order: Order,
) {
    let bound = order.bound;
    let values = order.values;
    put_values(out, names, correlation, variables, &bound, &values);
}

// Scope n, which closed, and for what that is remembered: the body of the root is part 0, and that of scope k is part k + 1.
fn put_closing(out: &mut Out, names: &[u8; 16896], table: &Table, n: usize, part: usize) {
    put_scope(out, names, table, n);
    if 0 < part {
        out.put(b" for ");
        put_scope(out, names, table, part - 1);
    } else {
        out.put(b" for the root");
    }
}

// An order's closings, oldest first.
fn put_closings(out: &mut Out, names: &[u8; 16896], table: &Table, order: Order) {
    if order.kept == 0 {
        out.put(b"none");
    }
    for i in 0..order.kept.min(32) {
        put_between(out, i);
        put_closing(out, names, table, scope_in(order, i), part_in(order, i));
    }
}

// Activity n with this mark, where it is a scope that faulted.
fn put_faulted(out: &mut Out, names: &[u8; 16896], table: &Table, n: usize, mark: u8) {
    if sayings::has_faulted(mark) {
        out.put(b"; ");
        sayings::put_scope_faulted(out, names, table, n, mark);
    }
}

// The scopes of an order with these marks that faulted and are not over, each with its fault.
fn put_all_faulted(out: &mut Out, names: &[u8; 16896], table: &Table, marks: &[u8; 256]) {
    for (n, mark) in marks.iter().enumerate() {
        put_faulted(out, names, table, n, *mark);
    }
}

// How an order stands, and by which fault; and which scopes in it faulted.
pub fn put_standing(out: &mut Out, names: &[u8; 16896], table: &Table, order: Order) {
    let marks = order.marks;
    put_root(out, order.root);
    put_cause(out, names, order.root, order.cause);
    put_all_faulted(out, names, table, &marks);
}

// The slot of an order, how it stands, and by which fault.
fn put_head(out: &mut Out, names: &[u8; 16896], table: &Table, slot: usize, order: Order) {
    out.put(b"order");
    out.put_next(slot as u64);
    out.put_byte(b' ');
    put_standing(out, names, table, order);
}

// A line for a live order.
fn put_order_line(
    out: &mut Out,
    names: &[u8; 16896],
    table: &Table,
    correlation: &[u8; 16],
    variables: u32,
    slot: usize,
    order: Order,
) {
    if order.root == 0 {
        return;
    }
    put_head(out, names, table, slot, order);
    out.put(b"; ");
    put_variables(out, names, correlation, variables, order);
    out.put(b"; remembered: ");
    put_closings(out, names, table, order);
    out.put_byte(b'\n');
}

// How many orders are live.
pub fn live_of(orders: [Order; 16]) -> u64 {
    orders.iter().filter(|order| order.root != 0).count() as u64
}

fn put_order_lines(
    out: &mut Out,
    names: &[u8; 16896],
    table: &Table,
    correlation: &[u8; 16],
    variables: u32,
    orders: [Order; 16],
) {
    out.put(b"orders");
    out.put_next(live_of(orders));
    out.put_byte(b'\n');
    for (slot, order) in orders.iter().enumerate() {
        put_order_line(out, names, table, correlation, variables, slot, *order);
    }
    out.put_byte(b'\n');
}

// How many orders are live, each of them, and a blank line.
pub fn put_orders(out: &mut Out, names: &[u8; 16896], state: State) {
    let mut table = [0u32; LENGTH];
    let mut correlation = [0u8; 16];
    let orders = state.orders;
    let a = machine::limits::planned(state, &mut table, &mut correlation);
    match a {
        Err(_) => out.put_refusal(b"orders", 17),
        Ok(Accepted { variables, .. }) => put_order_lines(
            out,
            names,
            &table,
            &correlation,
            variables,
            orders,
        ),
    }
}

// A line of the drawing, with what that activity is doing.
fn put_doing_line(
    out: &mut Out,
    names: &[u8; 16896],
    table: &Table,
    correlation: &[u8; 16],
    order: Order,
    n: usize,
) {
    out.put_aligned(n as u64);
    out.put(b"  ");
    put_doing(out, true, doing_of(table, order, n));
    let plan = Plan {
        names,
        table,
        correlation,
    };
    put_drawn(out, plan, n);
}

fn put_doing_lines(
    out: &mut Out,
    names: &[u8; 16896],
    table: &Table,
    correlation: &[u8; 16],
    activities: usize,
    order: Order,
) {
    for n in 0..activities {
        put_doing_line(out, names, table, correlation, order, n);
    }
}

// What stands under the drawing of an order.
fn put_foot(
    out: &mut Out,
    names: &[u8; 16896],
    table: &Table,
    correlation: &[u8; 16],
    variables: u32,
    order: Order,
) {
    out.put(b"variables: ");
    put_variables(out, names, correlation, variables, order);
    out.put(b"\nremembered, oldest first: ");
    put_closings(out, names, table, order);
    out.put(b"\n\n");
}

// The order in a slot on the drawing of its plan.
fn put_drawn_order(
    out: &mut Out,
    names: &[u8; 16896],
    table: &Table,
    correlation: &[u8; 16],
    variables: u32,
    activities: usize,
    slot: usize,
    order: Order,
) {
    put_head(out, names, table, slot, order);
    out.put_byte(b'\n');
    if order.root != 0 {
        put_doing_lines(out, names, table, correlation, activities, order);
        put_foot(out, names, table, correlation, variables, order);
    }
}

// The order in a slot.
pub fn put_order(out: &mut Out, names: &[u8; 16896], state: State, slot: usize) {
    let mut table = [0u32; LENGTH];
    let mut correlation = [0u8; 16];
    let orders = state.orders;
    let order = order_in(orders, slot);
    let a = machine::limits::planned(state, &mut table, &mut correlation);
    match a {
        Err(_) => out.put_refusal(b"order", 17),
        Ok(
            Accepted {
                variables,
                activities,
                ..
            },
        ) => put_drawn_order(
            out,
            names,
            &table,
            &correlation,
            variables,
            activities,
            slot,
            order,
        ),
    }
}
