// One order: what a step in it leads to, and what it takes.
#![tactic(auto)]

mod acting;
mod judging;
mod outcomes;
mod root;
mod taking;

ghost use Rattle.order.specs.Answering.{StepsOrder, TakesOrder};

use order::rows::kind_of;
use order::{Next, Order};
use plan::kind;
use plan::table::Table;
pub use root::acted;

// The calls below answer what the definitions say of the plan that the table spells. On a table that spells no plan they are safe and end, and
// nothing more is said of their answers (docs/DECISIONS.md). So does `acted`: the step of an activity by itself, or a raise in its place, with nothing
// judged, for whoever tells the two apart.

// Step t of an order, and what is open then judged: how the order ended with it, if it did, and the order after it. `activities` is how many activities and
// arms the plan has. Nothing is said of a close that has no room: it is held, and so not taken.
pub fn step_order(table: &Table, activities: usize, order: Order, t: usize) -> Next
    ensures { StepsOrder table.now activities t order result }
{
    judging::settled(
        table,
        activities,
        root::acted(table, activities, order, t, false),
    )
}

// The order that takes a message by activity t, which gives its four values and then whom to reply to: the variables of a receive or an arm are bound, and
// then the one that a receive has for whom to reply to. Its step comes after.
pub fn taken_order(
    table: &Table,
    activities: usize,
    order: Order,
    t: usize,
    values: [u32; 5],
) -> Order
    ensures { TakesOrder table.now activities t values order result }
{
    if activities <= t || 256 <= t {
        return order;
    }
    match kind_of(table, t) {
        kind::RECEIVE | kind::ARM => taking::bind_row(table, t, values, order),
        kind::ASKING_RECEIVE => taking::bind_asking(table, t, values, order),
        _ => order,
    }
}
