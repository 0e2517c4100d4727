// A step in an activity: down to the one that acts, and back.
ghost use Rattle.std.specs.Prelude.{◌≤◌, ◌<◌, ◌≡◌};
ghost use Rattle.order.specs.Acting.{in_place};
ghost use Rattle.order.specs.Answering.{ChildWith, Arms, BeginsAfter, Follows, JoinsAt, of_undo, Through, InScope, GoesOn, has_parts, Combines, actor_of, Performs, PartOf, StepsIn};

use super::outcomes::{from_body, from_fault, from_undo};
use activity::{again, finishes, itself, raises};
use beginning::begin_in_turn;
use order::kind::is_scope;
use order::marks::{begun_in, mark_at, marked, quiet, runs};
use order::parts::undo_row;
use order::rows::{end_of, kind_of, spot_at};
use order::{Entered, Order, Way, Went, fault, mark};
use plan::kind;
use plan::table::Table;

// The row of those from c to e, side by side, in which row t stands; e where there is none.
fn child_with(table: &Table, c: usize, e: usize, t: usize) -> usize
    requires { e ≤ 256 }
    ensures { ChildWith table.now c e t result }
{
    // Stays: (d) the next place is told by the row itself, so no range has these places.
    let mut j = c;
    while j < e {
        let n = end_of(table, j);
        if t < n {
            return j;
        }
        j = n;
    }
    e
}

// A pick one of whose arms takes its message is no longer active.
fn arms(table: &Table, k: usize, e: usize, child: usize, t: usize, order: Order) -> Order
    ensures { Arms table.now k e child t order result }
{
    if kind_of(table, k) == kind::PICK && child < e && child == t {
        marked(k, mark::INSIDE, order)
    } else {
        order
    }
}

// What follows the part in row `child` begins, in turn, as far as row e.
fn begin_after(table: &Table, e: usize, child: usize, marks: [u8; 256]) -> Entered
    ensures { BeginsAfter table.now e child marks result }
{
    if child < e {
        begin_in_turn(table, end_of(table, child), e, marks)
    } else {
        Entered { marks, over: true }
    }
}

// Sequence k goes on after its part in row `child`.
fn follows(table: &Table, k: usize, e: usize, child: usize, order: Order) -> Went
    ensures { Follows table.now k e child order result }
{
    let r = begun_in(order, begin_after(table, e, child, order.marks));
    if r.way.is_over() {
        finishes(k, r.order)
    } else {
        r
    }
}

// A flow is over when all in it is.
fn joins(k: usize, e: usize, order: Order) -> Went
    requires { (k < 256) × (e ≤ 256) }
    ensures { JoinsAt k e order result }
{
    if quiet(k + 1, e, order.marks) {
        finishes(k, order)
    } else {
        runs(order)
    }
}

// Whether this is what became of an undo part.
#[tactic(auto, unfolding(order::specs::Answering::of_undo))]
fn of_undo(way: Way) -> bool
    ensures { result ≡ of_undo way }
{
    matches!(way, Way::Undone | Way::UndoRaising { .. })
}

// Whether what became of an order in the body of scope k goes through it: of an undo part that it handed on, to the scope further around that runs it.
fn goes_through(table: &Table, k: usize, r: Went) -> bool
    ensures { Through table.now k r result }
{
    kind_of(table, k) == kind::OPEN_SCOPE && mark_at(k, r.order) == mark::IDLE && of_undo(r.way)
}

// What scope k makes of a step t within it.
fn in_scope(table: &Table, k: usize, t: usize, r: Went) -> Went
    ensures { InScope table.now k t r result }
{
    let s = spot_at(table, k);
    if t < s.parts {
        if goes_through(table, k, r) {
            r
        } else {
            from_body(table, s, r)
        }
    } else if t < undo_row(table, s) {
        from_fault(table, s, r)
    } else {
        from_undo(r)
    }
}

// What activity k makes of its part that is over.
fn goes_on(table: &Table, k: usize, e: usize, child: usize, order: Order) -> Went
    requires { (k < 256) × (e ≤ 256) }
    ensures { GoesOn table.now k e child order result }
{
    let mark = mark_at(k, order);
    match kind_of(table, k) {
        kind::SEQUENCE => {
            if mark == mark::ACTIVE {
                follows(table, k, e, child, order)
            } else {
                runs(order)
            }
        }
        kind::FLOW => {
            if mark == mark::ACTIVE {
                joins(k, e, order)
            } else {
                runs(order)
            }
        }
        kind::REPEAT => {
            if mark == mark::INSIDE {
                again(k, order)
            } else {
                runs(order)
            }
        }
        _ => {
            if mark == mark::INSIDE {
                finishes(k, order)
            } else {
                runs(order)
            }
        }
    }
}

// Whether an activity of this kind goes on where its part is over: a choose, a repeat, a sequence, a flow or a pick.
fn has_parts(kind: u32) -> bool
    ensures { result ≡ has_parts kind }
{
    kind::CHOOSE <= kind && kind < kind::SCOPE
}

// What activity k makes of a step t within it.
fn combines(table: &Table, k: usize, e: usize, child: usize, t: usize, r: Went) -> Went
    requires { (k < 256) × (e ≤ 256) }
    ensures { Combines table.now k e child t r result }
{
    let kind = kind_of(table, k);
    if is_scope(kind) {
        in_scope(table, k, t, r)
    } else if has_parts(kind) && r.way.is_over() {
        goes_on(table, k, e, child, r.order)
    } else {
        r
    }
}

// A raise in place of activity k, where that is a receive or an arm.
fn replaced(table: &Table, q: usize, k: usize, order: Order) -> Went
    ensures { Performs table.now in_place q k order result }
{
    match kind_of(table, k) {
        kind::RECEIVE | kind::ASKING_RECEIVE | kind::ARM => {
            raises(fault::CONFLICTING_RECEIVE, k, order)
        }
        _ => itself(table, q, k, order),
    }
}

// Activity k acts, or a raise in its place.
fn performs(table: &Table, q: usize, k: usize, raise: bool, order: Order) -> Went
    ensures { Performs table.now (actor_of raise) q k order result }
{
    if raise {
        replaced(table, q, k, order)
    } else {
        itself(table, q, k, order)
    }
}

// The part that what stands in row `child` within activity k stands in, where k stands in the part q: of what stands directly in a scope each is a part by
// itself.
fn part_of(table: &Table, q: usize, k: usize, child: usize) -> usize
    ensures { PartOf table.now q k child result }
{
    if is_scope(kind_of(table, k)) {
        child
    } else {
        q
    }
}

// Step t in activity k, which stands in the part whose first activity has the number q, or a raise in its place.
pub(crate) fn step_in(
    table: &Table,
    q: usize,
    k: usize,
    t: usize,
    raise: bool,
    order: Order,
) -> Went
    requires { k < 256 }
    ensures { StepsIn table.now (actor_of raise) q k t order result }
{
    if k == t {
        return performs(table, q, k, raise, order);
    }
    let e = end_of(table, k);
    let child = child_with(table, k + 1, e, t);
    let o = arms(table, k, e, child, t, order);
    let r = if child < e {
        step_in(table, part_of(table, q, k, child), child, t, raise, o)
    } else {
        runs(o)
    };
    combines(table, k, e, child, t, r)
}
