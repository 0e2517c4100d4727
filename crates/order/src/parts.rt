// The fault parts of a scope: which one a fault chooses, and where they and the undo part stand.
ghost use Rattle.std.specs.Prelude.{◌+◌, ◌≤◌, ◌<◌, ◌≡◌};
ghost use Rattle.order.specs.Answering.{Chooses, Faulting, PartRow, chosen_index, ChosenRow, UndoRow};
ghost use Rattle.order.specs.Scope.{general_for};

use super::marks::{causing, mark_with, marking};
use super::rows::{end_of, number_at};
use super::{Order, Spot, mark};
use plan::table::Table;

// The choice of the general part, which says which fault it was.
fn general_for(number: u8) -> u8
    ensures { (result ≡ general_for number) × (result < 16) }
{
    9 + number.min(6)
}

// Which of its fault parts a scope runs for a fault of that number: the part with the equal number, else the general one.
fn choice_for(table: &Table, spot: Spot, number: u8) -> u8
    ensures { Chooses table.now spot number result }
{
    for i in 0..spot.count.min(8) {
        if number_at(table, spot.first, i) == u32::from(number) {
            return i as u8 + 1;
        }
    }
    general_for(number)
}

// The order in which a scope faults with that number: it has chosen its fault part.
pub fn faulting(table: &Table, spot: Spot, number: u8, order: Order) -> Order
    ensures { Faulting table.now spot number order result }
{
    let c = choice_for(table, spot, number);
    causing(
        spot,
        number,
        marking(spot, mark_with(c, mark::FAULTY), order),
    )
}

// The row of the i-th of the parts that stand one after the other from row c on.
fn part_row(table: &Table, c: usize, i: usize) -> usize
    ensures { PartRow table.now c i result }
{
    let mut j = c;
    for _ in 0..i {
        j = end_of(table, j);
    }
    j
}

// Which of the fault parts a choice stands for, where there are `count` by number: the general one is the last.
fn chosen_index(choice: u8, count: usize) -> usize
    ensures { result ≡ chosen_index choice count }
{
    let c = usize::from(choice);
    if 0 < c && c < 9 && c <= count {
        c - 1
    } else {
        count
    }
}

// The row of the fault part that a scope chose.
pub fn chosen_row(table: &Table, spot: Spot, choice: u8) -> usize
    ensures { ChosenRow table.now spot choice result }
{
    part_row(table, spot.parts, chosen_index(choice, spot.count))
}

// The row after the fault parts of a scope: that of its undo part, where it has one.
pub fn undo_row(table: &Table, spot: Spot) -> usize
    ensures { UndoRow table.now spot result }
{
    end_of(table, part_row(table, spot.parts, spot.count))
}
