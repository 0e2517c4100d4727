// Finds receives that disagree: document 02, request 8.
ghost use Rattle.std.specs.Prelude.{◌+◌, ◌*◌, ◌%◌, ◌≤◌, ◌<◌, length, get_or, ◌≡◌};
ghost use Rattle.plan.specs.Agree.{asking};
ghost use Rattle.plan.specs.Heard.{noted, heard, heard_all, ahead_of, row_asked, rows_asked, differing};

use super::code;
use super::table::{COUNT, KIND, OPERATION, PARTNER, PLACE, WIDTH};

// A receive or an arm is heard: its count where it is the first for its pair, and its place where it is the first that differs.
pub fn hear(
    counts: &mut [u8; 4096],
    differs: &mut usize,
    partner: usize,
    operation: usize,
    many: usize,
    place: usize,
)
    ensures { noted counts.new differs.new ≡ heard (asking partner operation many place) (noted counts.old differs.old) }
{
    let i = partner % 64 * 64 + operation % 64;
    let before = usize::from(counts[i]);
    if before == 0 {
        // a count of a plan is 1 to 4, and fits a byte
        counts[i] = (many % 256) as u8;
    } else if before != many && *differs == 0 {
        *differs = place;
    }
}

// Column c of row k.
fn column(table: &[u32], k: usize, c: usize) -> usize
    requires { ((k < 256) × (c < 13)) × (length table.now ≡ 11584) }
    ensures is { result ≡ get_or table.now (k * 13 + c) 0 }
    ensures small { result ≤ 4294967295 }
{
    table[k * WIDTH + c] as usize
}

// How many bytes stand before the count of a receive, or of an arm; 0 for all else.
#[tactic(auto, unfolding(crate::specs::Heard::ahead_of))]
fn ahead(kind: usize) -> usize
    ensures is { result ≡ ahead_of kind }
    ensures small { result ≤ 3 }
{
    match kind {
        code::RECEIVE | code::ASKING_RECEIVE => 3,
        code::ARM => 2,
        _ => 0,
    }
}

// What row k of the table asks for is heard.
fn hear_row(table: &[u32], k: usize, counts: &mut [u8; 4096], differs: &mut usize)
    requires { (k < 256) × (length table.now ≡ 11584) }
    ensures { noted counts.new differs.new ≡ heard_all (row_asked table.now k) (noted counts.old differs.old) }
{
    let skip = ahead(column(table, k, KIND));
    if skip > 0 {
        hear(
            counts,
            differs,
            column(table, k, PARTNER),
            column(table, k, OPERATION),
            column(table, k, COUNT),
            column(table, k, PLACE) + skip,
        );
    }
}

// The place of the first count in the table's first n rows that differs from an earlier one for the same pair; 0 where none does. The table is lent
// as a slice so that its length is a fact.
pub(crate) fn first_differing(table: &[u32], n: usize) -> usize
    requires { (n ≤ 256) × (length table.now ≡ 11584) }
    ensures is { result ≡ differing (rows_asked n table.now 0) }
    ensures long { length table.now ≡ 11584 }
{
    let mut counts = [0u8; 4096];
    let mut differs: usize = 0;
    for k in 0..n {
        hear_row(table, k, &mut counts, &mut differs);
    }
    differs
}
