// What a scope makes of a fault, and of what runs in it.
ghost use Rattle.std.specs.Prelude.{◌≡◌};
ghost use Rattle.order.specs.Answering.{Leads, Makes, PartOver, went, outcome};
ghost use Rattle.order.specs.Scope.{faults as faults_of, breaks as breaks_of, looks_again, body_over, body_raised, undo_over, undo_raised, from_body, part_over, part_raised, from_fault, from_undo};

use order::marks::{cleared, mark_of, marking, runs, state_of, with_marks};
use order::memory::forgetting;
use order::parts::faulting;
use order::{Order, Spot, Way, Went, mark};
use plan::table::Table;
use scopes::scopes::{ends, turns, undoes};
use scopes::stopping::{is_open, stop};

// The scope faults, with a fault of that number.
fn faults(table: &Table, number: u8, spot: Spot, order: Order) -> Went
    ensures { Leads table.now spot (faults_of number) order result }
{
    let o = faulting(table, spot, number, order);
    turns(table, true, spot, stop(table, spot.body, o))
}

// The scope ends with a fault of that number, which goes on to the scope around it.
fn breaks(table: &Table, number: u8, spot: Spot, order: Order) -> Went
    ensures { Leads table.now spot (breaks_of number) order result }
{
    let o = forgetting(spot.body, marking(spot, mark::IDLE, order));
    let marks = cleared(spot.first, spot.end, o.marks);
    Went {
        way: Way::Raising { number },
        order: with_marks(marks, o),
    }
}

// The scope looks again where it waits for its inner scopes.
fn looks_again(table: &Table, spot: Spot, order: Order) -> Went
    ensures { Leads table.now spot looks_again order result }
{
    if state_of(spot, order) == mark::FAULTY {
        turns(table, true, spot, order)
    } else if mark_of(spot, order) == mark::HALTED {
        turns(table, false, spot, order)
    } else {
        runs(order)
    }
}

// The body is over.
fn body_over(table: &Table, spot: Spot, order: Order) -> Went
    ensures { Leads table.now spot body_over order result }
{
    if mark_of(spot, order) == mark::ACTIVE {
        runs(marking(spot, mark::DONE, order))
    } else {
        looks_again(table, spot, order)
    }
}

// A fault of that number came out of the body.
fn body_raised(table: &Table, number: u8, spot: Spot, order: Order) -> Went
    ensures { Leads table.now spot (body_raised number) order result }
{
    if is_open(mark_of(spot, order)) {
        faults(table, number, spot, order)
    } else {
        looks_again(table, spot, order)
    }
}

// An undo part that the scope is running is over.
fn undo_over(table: &Table, spot: Spot, order: Order) -> Went
    ensures { Leads table.now spot undo_over order result }
{
    if state_of(spot, order) == mark::UNDOING {
        undoes(table, true, spot, order)
    } else if mark_of(spot, order) == mark::WITHDRAWING {
        undoes(table, false, spot, order)
    } else {
        runs(order)
    }
}

// A fault of that number came out of an undo part that the scope is running.
fn undo_raised(table: &Table, number: u8, spot: Spot, order: Order) -> Went
    ensures { Leads table.now spot (undo_raised number) order result }
{
    if state_of(spot, order) == mark::UNDOING || mark_of(spot, order) == mark::WITHDRAWING {
        breaks(table, number, spot, order)
    } else {
        runs(order)
    }
}

// What a scope makes of a step in its body.
pub(crate) fn from_body(table: &Table, spot: Spot, r: Went) -> Went
    ensures { Makes table.now spot from_body r result }
{
    let order = r.order;
    match r.way {
        Way::Running => looks_again(table, spot, order),
        Way::Over => body_over(table, spot, order),
        Way::Raising { number } => body_raised(table, number, spot, order),
        Way::Leaving => r,
        Way::Undone => undo_over(table, spot, order),
        Way::UndoRaising { number } => undo_raised(table, number, spot, order),
    }
}

// The fault part that the scope is running is over.
fn part_over(spot: Spot, order: Order) -> Went
    ensures { PartOver spot order result }
{
    if state_of(spot, order) == mark::HANDLING {
        ends(spot, order)
    } else {
        runs(order)
    }
}

// A fault of that number came out of the fault part that the scope is running.
fn part_raised(table: &Table, number: u8, spot: Spot, order: Order) -> Went
    ensures { Leads table.now spot (part_raised number) order result }
{
    if state_of(spot, order) == mark::HANDLING {
        breaks(table, number, spot, order)
    } else {
        runs(order)
    }
}

// What a scope makes of a step in one of its fault parts.
pub(crate) fn from_fault(table: &Table, spot: Spot, r: Went) -> Went
    ensures { Makes table.now spot from_fault r result }
{
    let order = r.order;
    match r.way {
        Way::Over => part_over(spot, order),
        Way::Raising { number } => part_raised(table, number, spot, order),
        Way::Leaving => r,
        Way::Running | Way::Undone | Way::UndoRaising { .. } => runs(order),
    }
}

// What goes up from the undo part of a scope.
pub(crate) fn from_undo(r: Went) -> Went
    ensures { result ≡ went (from_undo (outcome r)) }
{
    match r.way {
        Way::Over => Went {
            way: Way::Undone,
            order: r.order,
        },
        Way::Raising { number } => Went {
            way: Way::UndoRaising { number },
            order: r.order,
        },
        Way::Running | Way::Leaving | Way::Undone | Way::UndoRaising { .. } => r,
    }
}
