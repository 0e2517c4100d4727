// The fewest unchecked places of the open receives that a message fits.
ghost use Rattle.std.specs.Prelude.{◌≤◌, ◌<◌};
ghost use Rattle.fit.specs.Receiving.{LeastLetter, LeastLetters, LeastRow, LeastRows, LeastSlot};

use super::fitness::{asked_at, fits_at, known_of, unchecked_at};
use super::search::open_at;
use order::Order;
use plan::table::Table;

// The fewest for the message at place j, after the receive or arm in row k.
#[tactic(auto, using(crate::proofs::Sets::least_letter))]
fn least_letter(
    table: &Table,
    k: usize,
    asked: &[u64; 4],
    unchecked: usize,
    letters: &[u32; 512],
    j: usize,
    least: usize,
) -> usize
    requires { (k < 256) × (j < 64) }
    ensures { LeastLetter table.now k asked.now letters.now j unchecked least result }
{
    if fits_at(table, k, asked, letters, j) && unchecked < least {
        unchecked
    } else {
        least
    }
}

// For each message that waits, after the receive or arm in row k.
#[tactic(auto, using(crate::proofs::Sets::least_letters))]
fn least_letters(
    table: &Table,
    known: &[u64; 16],
    k: usize,
    letters: &[u32; 512],
    waiting: usize,
    least: &mut [usize; 64],
)
    requires { (k < 256) × (waiting ≤ 64) }
    ensures { LeastLetters table.now known.now k letters.now waiting least.old least.new }
{
    let asked = asked_at(table, known, k);
    let unchecked = unchecked_at(table, k, &asked);
    for j in 0..waiting {
        least[j] = least_letter(table, k, &asked, unchecked, letters, j, least[j]);
    }
}

// After row k: whether it is open is asked before any message is looked at.
#[tactic(auto, using(crate::proofs::Sets::least_row))]
fn least_row(
    table: &Table,
    picks: &[usize; 256],
    marks: &[u8; 256],
    known: &[u64; 16],
    k: usize,
    letters: &[u32; 512],
    waiting: usize,
    least: &mut [usize; 64],
)
    requires { (k < 256) × (waiting ≤ 64) }
    ensures { LeastRow table.now picks.now marks.now known.now k letters.now waiting least.old least.new }
{
    if open_at(table, picks, marks, k) {
        least_letters(table, known, k, letters, waiting, least);
    }
}

// After all rows of an order.
#[tactic(auto, using(crate::proofs::Sets::least_rows))]
fn least_rows(
    table: &Table,
    picks: &[usize; 256],
    marks: &[u8; 256],
    known: &[u64; 16],
    activities: usize,
    letters: &[u32; 512],
    waiting: usize,
    least: &mut [usize; 64],
)
    requires { (activities ≤ 256) × (waiting ≤ 64) }
    ensures { LeastRows table.now picks.now marks.now known.now activities letters.now waiting least.old least.new }
{
    for k in 0..activities {
        least_row(table, picks, marks, known, k, letters, waiting, least);
    }
}

// After the order in a slot.
#[tactic(auto, using(crate::proofs::Sets::least_slot))]
pub fn least_slot(
    table: &Table,
    flags: &[u8; 16],
    picks: &[usize; 256],
    order: Order,
    activities: usize,
    letters: &[u32; 512],
    waiting: usize,
    least: &mut [usize; 64],
)
    ensures { LeastSlot table.now flags.now picks.now order activities letters.now waiting least.old least.new }
{
    if 256 < activities || 64 < waiting || order.root == 0 {
        return;
    }
    let known = known_of(flags, order);
    least_rows(
        table,
        picks,
        &order.marks,
        &known,
        activities,
        letters,
        waiting,
        least,
    )
}
