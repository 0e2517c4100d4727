// What one row of an order has on offer, for callers who ask for a row by itself.
ghost use Rattle.fit.specs.Lines.{Rows};
ghost use Rattle.sight.specs.Sights.{Opening, offer_line};

use super::Sight;
use super::rows::offer_row;
use plan::table::Table;

// What row k has on offer, whatever k is.
#[tactic(auto, using(crate::proofs::Sets::row_sight))]
pub fn row_sight(
    table: &Table,
    picks: &[usize; 256],
    marks: &[u8; 256],
    known: &[u64; 16],
    bound: &[u8; 16],
    values: &[u32; 16],
    parts: &[u8; 32],
    kept: usize,
    slot: usize,
    k: usize,
    cutting: bool,
    letters: &[u32; 512],
    waiting: usize,
    least: &[usize; 64],
    s: Sight,
) -> Sight
    ensures { Rows table.now k (Opening table.now picks.now marks.now known.now bound.now values.now parts.now kept letters.now waiting least.now) (offer_line cutting waiting slot) s result }
{
    if 256 <= k || 64 < waiting {
        return s;
    }
    offer_row(
        table, picks, marks, known, bound, values, parts, kept, slot, k, cutting, letters, waiting,
        least, s,
    )
}
