// How far an order is from where nothing is left to fault: the ranks of its marks, the root's first, compared like the letters of two words.
ghost use Rattle.std.specs.Prelude.{◌<◌, ◌≡◌};
ghost use Rattle.order.specs.Judging.{rank as rank_of};
ghost use Rattle.settling.specs.Answering.{Counts, RankAt, Lowers};

use order::mark;
use plan::kind;
use plan::table::{Table, WIDTH};

// How far a mark is from idle, for an activity of this kind: a choice of a fault part beside it does not matter.
#[tactic(auto, unfolding(order::specs::Judging::rank))]
fn rank(kind: u32, mark: u8) -> u32
    ensures { result ≡ rank_of kind mark }
{
    match mark % 16 {
        mark::ACTIVE => 7,
        mark::INSIDE if kind == kind::REPEAT => 8,
        mark::INSIDE | mark::DONE => 6,
        mark::FAULTY => 5,
        mark::UNDOING => 3,
        mark::HANDLING => 1,
        mark::HALTED => 4,
        mark::WITHDRAWING => 2,
        _ => 0,
    }
}

// That of the mark of row k.
fn rank_at(table: &Table, marks: &[u8; 256], k: usize) -> u32
    requires { k < 256 }
    ensures { RankAt table.now marks.now k result }
{
    rank(table[k * WIDTH], marks[k])
}

// How many rows are compared: none of a table with more than 256.
#[tactic(auto, unfolding(crate::specs::Answering::rows_of))]
fn rows_of(activities: usize) -> usize
    ensures { Counts activities result }
{
    if activities <= 256 { activities } else { 0 }
}

// Whether the first rank that differs is lower after than before, the root's coming before all others.
pub fn is_lower(
    table: &Table,
    activities: usize,
    before: u8,
    marks: &[u8; 256],
    after: u8,
    others: &[u8; 256],
) -> bool
    ensures { Lowers table.now activities before marks.now after others.now result }
{
    let x = rank(kind::SCOPE, before);
    let y = rank(kind::SCOPE, after);
    if x != y {
        return y < x;
    }
    for k in 0..rows_of(activities) {
        let v = rank_at(table, marks, k);
        let w = rank_at(table, others, k);
        if v != w {
            return w < v;
        }
    }
    false
}
