// How a scope ends, handles its fault, undoes and turns.
ghost use Rattle.std.specs.Prelude.{true, false, ◌≡◌};
ghost use Rattle.order.specs.Answering.{ends_of, Handles, Undoes, Turns};

use super::undoing::undo;
use beginning::begin;
use order::inside::inner_runs;
use order::marks::{begun_in, choice_of, handling, marking, runs, undoing};
use order::parts::chosen_row;
use order::{Order, Spot, Way, Went, mark};
use plan::table::Table;

// The scope ends without closing.
pub fn ends(spot: Spot, order: Order) -> Went
    ensures { result ≡ ends_of spot order }
{
    Went {
        way: Way::Over,
        order: marking(spot, mark::IDLE, order),
    }
}

// The scope runs the fault part that it chose.
fn handle(table: &Table, spot: Spot, order: Order) -> Went
    ensures { Handles table.now spot order result }
{
    let c = chosen_row(table, spot, choice_of(spot, order));
    let o = handling(spot, order);
    let r = begun_in(o, begin(table, c, o.marks));
    if r.way.is_over() {
        ends(spot, r.order)
    } else {
        r
    }
}

// The scope undoes, and then runs its fault part.
fn undoes_handling(table: &Table, spot: Spot, order: Order) -> Went
    ensures { Undoes table.now true spot order result }
{
    let o = undoing(spot, order);
    let r = undo(table, spot, o);
    if r.way.is_over() {
        handle(table, spot, r.order)
    } else {
        r
    }
}

// The scope undoes, and then ends.
fn undoes_ending(table: &Table, spot: Spot, order: Order) -> Went
    ensures { Undoes table.now false spot order result }
{
    let o = marking(spot, mark::WITHDRAWING, order);
    let r = undo(table, spot, o);
    if r.way.is_over() {
        ends(spot, r.order)
    } else {
        r
    }
}

// The scope undoes: after its list it runs its fault part, or where it was stopped it ends.
pub fn undoes(table: &Table, faulted: bool, spot: Spot, order: Order) -> Went
    ensures { Undoes table.now faulted spot order result }
{
    if faulted {
        undoes_handling(table, spot, order)
    } else {
        undoes_ending(table, spot, order)
    }
}

// The scope undoes where none of its inner scopes is left running.
pub fn turns(table: &Table, faulted: bool, spot: Spot, order: Order) -> Went
    ensures { Turns table.now faulted spot order result }
{
    if inner_runs(table, spot.body, spot.parts, order.marks) {
        runs(order)
    } else {
        undoes(table, faulted, spot, order)
    }
}
