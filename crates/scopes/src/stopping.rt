// How an activity stops.
ghost use Rattle.std.specs.Prelude.{◌≡◌};
ghost use Rattle.order.specs.Answering.{Withdraws, Stops};
ghost use Rattle.order.specs.Scope.{is_open};

use super::scopes::turns;
use order::kind::is_scope;
use order::marks::{mark_at, marked};
use order::rows::{end_of, kind_of, spot_at};
use order::{Order, mark};
use plan::table::Table;

// Whether a scope with this mark is begun and neither closed, faulted nor stopped.
pub fn is_open(mark: u8) -> bool
    ensures { result ≡ is_open mark }
{
    matches!(mark, mark::ACTIVE | mark::DONE)
}

// Scope k, whose body has stopped, turns to undoing.
fn withdrawn(table: &Table, k: usize, order: Order) -> Order
    ensures { Withdraws table.now k order result }
{
    turns(table, false, spot_at(table, k), order).order
}

// The activity in row k stops, where there is one.
pub fn stop(table: &Table, k: usize, order: Order) -> Order
    ensures { Stops table.now k order result }
{
    if 256 <= k {
        return order;
    }
    let e = end_of(table, k);
    if is_scope(kind_of(table, k)) {
        if is_open(mark_at(k, order)) && k + 1 < e {
            let o = stop(table, k + 1, marked(k, mark::HALTED, order));
            return withdrawn(table, k, o);
        }
        return order;
    }
    let mut o = marked(k, mark::IDLE, order);
    // Stays: (d) the next place is told by the row itself, so no range has these places.
    let mut c = k + 1;
    while c < e {
        o = stop(table, c, o);
        c = end_of(table, c);
    }
    o
}
