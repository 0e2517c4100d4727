// Cuts the bytes of an accepted plan into rows.
ghost use Rattle.std.specs.Prelude.{◌+◌, ◌*◌, ◌≤◌, ◌<◌, eqb, ltb, get_or, length, cond, ◌≡◌};
ghost use Rattle.std.proofs.lemmas.List.Edits.{sets};
ghost use Rattle.writer.specs.Rows.{line, lines};
ghost use Rattle.rows.specs.Cut.{value_in, next_in, numbers_in, place_after, kind_in, count_in, place_in, kind_at, between_in, width_of, opens, row_width, due_after, k_after, cut_rows, head_width, cut_plan};

use numbers::Number;
use plan::code;
use plan::table::{COUNT, PLACE, Table, WIDTH};
use writer::cells::{at_most_19, wide};

// The number at `at`.
#[tactic(auto, unfolding(crate::specs::Cut::value_of, crate::specs::Cut::next_of))]
fn taken_at(s: &[u8], at: usize) -> Number
    ensures value { result.value ≡ value_in s.now at }
    ensures next { result.next ≡ next_in s.now at }
{
    numbers::read(s, at).unwrap_or(Number { value: 0, next: at })
}

// `left` numbers from `at` on are put into the buffer from `base` on; the place after them.
#[tactic(auto, using(crate::proofs::CutReturns::putting))]
fn put_numbers(s: &[u8], at: usize, left: usize, out: &mut [u32], base: usize) -> usize
    requires { base + left ≤ length out.old }
    ensures next { result ≡ place_after left s.now at }
    ensures numbers { out.new ≡ sets out.old base (numbers_in left s.now at) }
{
    let mut p = at;
    for i in 0..left {
        let n = taken_at(s, p);
        out[base + i] = n.value;
        p = n.next;
    }
    p
}

// A row of `width` numbers from `at` on; the place after them.
#[tactic(auto, using(crate::proofs::CutReturns::row))]
fn put_row(s: &[u8], at: usize, width: usize, out: &mut [u32], base: usize) -> usize
    requires { (base + 20 ≤ length out.old) × (width ≤ 19) }
    ensures next { result ≡ place_after width s.now at }
    ensures row { out.new ≡ sets out.old base (line (numbers_in width s.now at)) }
{
    out[base] = width as u32;
    let next = put_numbers(s, at, width, out, base + 1);
    out[base + 1 + width..base + 20].fill(0);
    next
}

// A number of the row of activity or arm k: its column j, and 0 where there is no such row.
fn column(table: &Table, k: usize, j: usize) -> usize
    requires { j < 13 }
    ensures is { result ≡ cond (ltb k 256) (get_or table.now (k * 13 + j) 0) 0 }
    ensures few { result ≤ 4294967295 }
{
    if k < 256 {
        wide(table[k * WIDTH + j])
    } else {
        0
    }
}

// The kind of activity or arm k.
#[tactic(auto, unfolding(crate::specs::Cut::kind_in))]
fn kind_of(table: &Table, k: usize) -> usize
    ensures { result ≡ kind_in table.now k }
{
    column(table, k, 0)
}

// How many variables activity or arm k names.
#[tactic(auto, unfolding(crate::specs::Cut::count_in))]
fn count_of(table: &Table, k: usize) -> usize
    ensures is { result ≡ count_in table.now k }
    ensures few { result ≤ 4294967295 }
{
    column(table, k, COUNT)
}

// The place of the first byte of activity or arm k.
#[tactic(auto, unfolding(crate::specs::Cut::place_in))]
fn place_of(table: &Table, k: usize) -> usize
    ensures { result ≡ place_in table.now k }
{
    column(table, k, PLACE)
}

// The kind of what stands at `at`: activity or arm k, or a number before it, which is like an empty one.
fn kind_at(table: &Table, k: usize, at: usize) -> usize
    ensures { result ≡ kind_at table.now k at }
{
    if at < place_of(table, k) {
        0
    } else {
        kind_of(table, k)
    }
}

// How many numbers stand between the parts of activity k.
fn between_of(table: &Table, k: usize) -> usize
    ensures is { result ≡ cond (eqb (kind_in table.now k) 14) (count_in table.now k + 1) 0 }
    ensures few { result ≤ 4294967296 }
{
    if kind_of(table, k) == code::NUMBERED_SCOPE {
        count_of(table, k) + 1
    } else {
        0
    }
}

// How many numbers stand between the parts of the first `left` activities and arms.
#[tactic(auto, using(crate::proofs::CutReturns::summing))]
pub(crate) fn between(table: &Table, left: usize) -> usize
    requires { left ≤ 256 }
    ensures { result ≡ between_in left table.now 0 }
{
    let mut sum: usize = 0;
    for k in 0..left {
        sum += between_of(table, k);
    }
    sum
}

// How many numbers the row of an activity or arm of this kind has, which names `count` variables.
#[tactic(auto, unfolding(crate::specs::Cut::width_of))]
fn width_of(kind: usize, count: usize) -> usize
    requires { count ≤ 4294967295 }
    ensures is { result ≡ width_of kind count }
    ensures few { result ≤ 19 }
{
    match kind {
        code::SEND | code::RECEIVE => at_most_19(4 + count),
        code::SET | code::SEQUENCE | code::FLOW | code::PICK | code::NUMBERED_RAISE => 2,
        code::HELD_SEND | code::ASKING_RECEIVE => at_most_19(5 + count),
        code::ARM => at_most_19(3 + count),
        _ => 1,
    }
}

// How many expressions follow the row of an activity of this kind.
#[tactic(auto, unfolding(crate::specs::Cut::opens))]
fn opens_of(kind: usize) -> usize
    ensures is { result ≡ opens kind }
    ensures few { result ≤ 1 }
{
    match kind {
        code::SET | code::CHOOSE | code::REPEAT => 1,
        _ => 0,
    }
}

// How many numbers the next row has, where `due` expressions come before activity k.
#[tactic(auto, unfolding(crate::specs::Cut::row_width))]
fn width_at(s: &[u8], table: &Table, k: usize, due: usize, at: usize) -> usize
    ensures is { result ≡ row_width s.now table.now k due at }
    ensures few { result ≤ 19 }
{
    if due == 0 {
        width_of(kind_at(table, k, at), count_of(table, k))
    } else if taken_at(s, at).value < 2 {
        2
    } else {
        1
    }
}

// How many expressions come before the next activity then.
#[tactic(auto, unfolding(crate::specs::Cut::due_after))]
fn due_after(s: &[u8], table: &Table, k: usize, due: usize, at: usize) -> usize
    requires { due ≤ 4294967295 }
    ensures is { result ≡ due_after s.now table.now k due at }
    ensures few { result ≤ due + 1 }
{
    if due == 0 {
        opens_of(kind_at(table, k, at))
    } else if taken_at(s, at).value < 2 {
        due - 1
    } else {
        due + 1
    }
}

// The activity or arm that is the next then.
#[tactic(auto, unfolding(crate::specs::Cut::k_after))]
fn k_after(table: &Table, k: usize, due: usize, at: usize) -> usize
    requires { k ≤ 4294967295 }
    ensures is { result ≡ k_after table.now k due at }
    ensures few { result ≤ k + 1 }
{
    if due == 0 && place_of(table, k) <= at {
        k + 1
    } else {
        k
    }
}

// How many numbers the head's row has.
#[tactic(auto, unfolding(crate::specs::Cut::head_width))]
fn head_width(s: &[u8]) -> usize
    ensures is { result ≡ head_width s.now }
    ensures few { result ≤ 19 }
{
    let version = taken_at(s, 0);
    let variables = taken_at(s, version.next);
    let correlation = taken_at(s, variables.next);
    at_most_19(3 + correlation.value as usize)
}

// `left` rows from `from` on are put into the buffer from row 1 on.
#[tactic(auto, using(crate::proofs::CutReturns::cutting))]
fn put_parts(s: &[u8], table: &Table, left: usize, from: usize, out: &mut [u32])
    requires { ((left + 1) * 20 ≤ length out.old) × (left ≤ 16384) }
    ensures { out.new ≡ sets out.old 20 (lines (cut_rows left s.now table.now 0 0 from)) }
{
    let mut k: usize = 0;
    let mut due: usize = 0;
    let mut at = from;
    for i in 0..left {
        let width = width_at(s, table, k, due, at);
        let after = due_after(s, table, k, due, at);
        k = k_after(table, k, due, at);
        due = after;
        at = put_row(s, at, width, out, (i + 1) * 20);
    }
}

// The head's row and `left` more are put into the buffer from its start on.
#[tactic(auto, using(crate::proofs::CutReturns::whole))]
pub(crate) fn put_rows(s: &[u8], table: &Table, left: usize, out: &mut [u32])
    requires { ((left + 1) * 20 ≤ length out.old) × (left ≤ 16384) }
    ensures { out.new ≡ sets out.old 0 (lines (cut_plan left s.now table.now)) }
{
    let at = put_row(s, 0, head_width(s), out, 0);
    put_parts(s, table, left, at, out);
}
