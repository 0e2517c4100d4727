// Where the boxes of a drawing stand, in pixels. Row n of the table is a box of one line's height; what stands in it are the boxes in the lines below,
// further in, each with a gap after it. So a box has the height of its lines and of the gaps between them.
ghost use Rattle.std.specs.Prelude.{◌≤◌};

use drawing::{depth_of, end_of};
use plan::table::Table;

// The height of a line, the gap after a box, and how much further in a box stands, on the left and on the right.
const LINE: usize = 26;

const GAP: usize = 6;

const LEFT: usize = 14;

const RIGHT: usize = 6;

// Twice the width of a character, which no usual font of this size and kind has more of.
const TWO_LETTERS: usize = 15;

pub(crate) fn at_most(x: usize, most: usize) -> usize
    ensures { result ≤ most }
{
    x.min(most)
}

// How many boxes stand around that of row n.
fn around(table: &Table, n: usize) -> usize
    ensures { result ≤ 64 }
{
    at_most(depth_of(table, n), 64)
}

pub(crate) fn left_of(table: &Table, n: usize) -> usize {
    around(table, n) * LEFT + 2
}

// The lines above row n, and a gap for each box above it that is over.
pub(crate) fn top_of(table: &Table, n: usize) -> usize {
    let k = at_most(n, 256);
    k * LINE + k.saturating_sub(around(table, n)) * GAP + 2
}

// How many lines the box of row n has: its own, and those of what stands in it.
fn lines_of(table: &Table, n: usize) -> usize
    ensures { result ≤ 256 }
{
    let end = at_most(end_of(table, n), 256);
    end.saturating_sub(n).max(1)
}

pub(crate) fn height_of(table: &Table, n: usize) -> usize {
    let k = lines_of(table, n);
    k * LINE + k.saturating_sub(1) * GAP
}

// The width of the box of row n, in a drawing of this width.
pub(crate) fn width_of(table: &Table, n: usize, whole: usize) -> usize {
    whole.saturating_sub(around(table, n) * (LEFT + RIGHT) + 4)
}

// The width of a drawing in which the box of row n has room for so many letters.
pub(crate) fn width_for(table: &Table, n: usize, letters: usize) -> usize {
    around(table, n) * (LEFT + RIGHT) + 40 + at_most(letters, 5000) * TWO_LETTERS / 2
}

// The height of a drawing of so many rows.
pub(crate) fn whole_height(activities: usize) -> usize {
    at_most(activities, 256) * (LINE + GAP) + 4
}
