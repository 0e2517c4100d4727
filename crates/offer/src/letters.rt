// What one message may start, for callers who ask for a message by itself.
ghost use Rattle.offer.specs.Seeing.{Frees, StartsAt};

use super::slots::{free_slot, start_letter};
use order::Order;
use plan::table::Table;
use sight::Sight;

// The lowest free slot, 16 where there is none.
pub fn lowest_free(orders: [Order; 16]) -> usize
    ensures { Frees orders result }
{
    free_slot(orders)
}

// What the message at place j may start, whatever j is, in the slot `free`: `marks` and `known` are those of an order as it starts.
#[tactic(auto, using(crate::proofs::Sets::letter_sight))]
pub fn letter_sight(
    table: &Table,
    flags: &[u8; 16],
    picks: &[usize; 256],
    orders: [Order; 16],
    marks: &[u8; 256],
    known: &[u64; 16],
    free: usize,
    activities: usize,
    letters: &[u32; 512],
    j: usize,
    s: Sight,
) -> Sight
    ensures { StartsAt table.now flags.now picks.now orders marks.now known.now free activities letters.now j s result }
{
    if 256 < activities || 64 <= j {
        return s;
    }
    start_letter(
        table, flags, picks, orders, marks, known, free, activities, letters, j, s,
    )
}
