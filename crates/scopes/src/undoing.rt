// How a scope undoes what is remembered for it.
ghost use Rattle.std.specs.Prelude.{◌<◌, length};
ghost use Rattle.order.specs.Answering.{BeginsPart, LooksTo, BeginsUndo, StartsUndo, UndoesList};
ghost use Rattle.order.specs.State.{closings};

use beginning::begin;
use order::kind::has_undo;
use order::marks::begun_in;
use order::memory::{entry, last_for, without};
use order::parts::undo_row;
use order::rows::{end_of, kind_of, spot_at};
use order::{Entered, Order, Spot, Way, Went};
use plan::kind;
use plan::table::Table;

// The undo part of the scope in row e begins.
fn begin_part(table: &Table, e: usize, marks: [u8; 256]) -> Entered
    requires { e < 256 }
    ensures { BeginsPart table.now e marks result }
{
    begin(table, undo_row(table, spot_at(table, e)), marks)
}

// The row where the rows end that are looked through for a scope in row j: those within it, and of a scope with no undo part those of its body.
fn looks_to(table: &Table, j: usize) -> usize
    requires { j < 256 }
    ensures { LooksTo table.now j result }
{
    if kind_of(table, j) == kind::OPEN_SCOPE {
        end_of(table, j + 1)
    } else {
        end_of(table, j)
    }
}

// The undo part of scope e begins, where that stands in the rows `from` to `to` with no other scope around it there but such as have no undo part.
fn begin_undo(table: &Table, from: usize, to: usize, e: usize, marks: [u8; 256]) -> Entered
    ensures { BeginsUndo table.now from to e marks result }
{
    if 256 < to {
        return Entered { marks, over: true };
    }
    // Stays: (d) the next place, and where the loop ends, are told by the row itself, so no range has these places.
    let mut j = from;
    let mut end = to;
    while j < end {
        let n = end_of(table, j);
        if n <= e {
            j = n;
            continue;
        }
        if has_undo(kind_of(table, j)) {
            if j == e {
                return begin_part(table, e, marks);
            }
            return Entered { marks, over: true };
        }
        end = looks_to(table, j);
        j += 1;
    }
    Entered { marks, over: true }
}

// The i-th closing is removed and the undo part of its scope started, which stands in the body of this one.
fn start_undo(table: &Table, spot: Spot, order: Order, i: usize) -> Went
    requires { i < length (closings order) }
    ensures { StartsUndo table.now spot order i result }
{
    let c = entry(order, i);
    let o = without(order, i);
    begun_in(
        o,
        begin_undo(table, spot.body, spot.parts, usize::from(c.scope), o.marks),
    )
}

// What is remembered for the scope is undone, the last first.
pub(crate) fn undo(table: &Table, spot: Spot, order: Order) -> Went
    ensures { UndoesList table.now spot order result }
{
    let mut o = order;
    while let Some(i) = last_for(spot.body, o) {
        let r = start_undo(table, spot, o, i);
        if !r.way.is_over() {
            return r;
        }
        o = r.order;
    }
    Went {
        way: Way::Over,
        order: o,
    }
}
