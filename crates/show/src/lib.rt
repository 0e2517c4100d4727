// Shows an activity of a plan: document 01, "One call shows activity k of a plan". The public call is `show`.
#![tactic(auto)]

ghost use Rattle.std.specs.Prelude.{◌+◌, ◌*◌, ◌<◌, get_or, is_ok, ◌≡◌};
ghost use Rattle.plan.specs.Read.{read_plan};
ghost use Rattle.show.specs.Shown.{part_of, start_of, refusal_of, is_shown, shown_part, shown_start, shown_refusal};

use plan::accept;
use plan::table::{LENGTH, PLACE, STOP, Table, WIDTH};

// The part of a plan that spells an activity or arm, and where it starts.
#[derive(Clone, Copy, Debug, PartialEq, Eq)]
pub struct Shown<'a> {
    pub part: &'a [u8],
    pub start: usize,
}

// Column j of row k, as a place.
fn column(table: &Table, k: usize, j: usize) -> usize
    requires row { k < 256 }
    requires place { j < 13 }
    ensures { result ≡ get_or table.now (k * 13 + j) 0 }
{
    table[k * WIDTH + j] as usize
}

// Activity or arm k of the plan s, as the very part of s that spells it; 16 where there is no activity k, a bad plan's own number.
// Stays: a refusal is its number, which the C interface gives as it is (`show_number` of boundary, and so moonhalyard_show).
#[tactic(auto, using(crate::proofs::ShowReads::showing), unfolding(plan::specs::Answers::answer_of, crate::specs::Shown::is_shown, crate::specs::Shown::shown_part, crate::specs::Shown::shown_start, crate::specs::Shown::shown_refusal))]
pub fn show<'a>(s: &'a [u8], k: usize) -> Result<Shown<'a>, u32>
    ensures given { is_ok result ≡ is_shown (read_plan s.now) k }
    ensures part { part_of result ≡ shown_part (read_plan s.now) s.now k }
    ensures place { start_of result ≡ shown_start (read_plan s.now) k }
    ensures refused { refusal_of result ≡ shown_refusal (read_plan s.now) k }
{
    let mut table = [0u32; LENGTH];
    let mut correlation = [0u8; 16];
    let plan = accept(s, &mut table, &mut correlation).map_err(|r| r.number)?;
    if plan.activities <= k {
        return Err(16);
    }
    let start = column(&table, k, PLACE);
    let stop = column(&table, k, STOP);
    Ok(Shown {
        part: &s[start..stop],
        start,
    })
}
