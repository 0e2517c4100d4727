// The root as a scope, and how an order stands after a step.
ghost use Rattle.std.specs.Prelude.{◌≤◌, ◌<◌, ◌≡◌};
ghost use Rattle.order.specs.Acting.{end_of, moved_to};
ghost use Rattle.order.specs.Answering.{outcome, next_of, ended_of, actor_of, RootSpot, ActsOrder};

use super::acting::step_in;
use super::outcomes::{from_body, from_fault};
use beginning::no_order;
use order::rows::end_of;
use order::{End, Next, Order, Spot, Way, Went, mark};
use plan::table::Table;

// An order that ended so, by a fault of that number where it is one: its slot is free.
fn ended(end: End, fault: u8) -> Next
    ensures { result ≡ ended_of end fault }
{
    Next {
        end,
        fault,
        order: no_order(),
    }
}

// The order after a step that led to this.
pub(crate) fn moved_to(r: Went) -> Next
    ensures { result ≡ next_of (moved_to (outcome r) (end_of (outcome r))) }
{
    let order = r.order;
    match r.way {
        Way::Running => {
            if order.root == mark::DONE {
                return ended(End::Well, 0);
            }
            Next {
                end: End::None,
                fault: 0,
                order,
            }
        }
        Way::Over => ended(End::Handled, order.cause),
        Way::Raising { number } => ended(End::Failed, number),
        Way::Leaving => ended(End::Left, 0),
        Way::Undone | Way::UndoRaising { .. } => Next {
            end: End::None,
            fault: 0,
            order,
        },
    }
}

// The root as a scope.
pub(crate) fn root_spot(table: &Table, activities: usize) -> Spot
    ensures { RootSpot table.now activities result }
{
    let end = end_of(table, 0);
    Spot {
        root: true,
        first: 0,
        end: activities.min(256),
        body: 0,
        parts: if end < 256 { end } else { 0 },
        count: 0,
    }
}

// Activity t acts in an order, or a raise in its place: how the order ended with it, if it did, and the order after it.
pub fn acted(table: &Table, activities: usize, order: Order, t: usize, raise: bool) -> Next
    ensures { ActsOrder table.now activities (actor_of raise) t order result }
{
    let s = root_spot(table, activities);
    let fault = s.parts;
    if t < fault {
        let r = step_in(table, 0, 0, t, raise, order);
        moved_to(from_body(table, s, r))
    } else {
        let r = step_in(table, fault, fault, t, raise, order);
        moved_to(from_fault(table, s, r))
    }
}
