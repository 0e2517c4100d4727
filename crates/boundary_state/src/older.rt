// A state of an older version as one of the next. In the first, MOONHAL1, a closing was one byte, the number of its scope, and takes two in the second, MOONHAL2, the
// other the part that it is remembered for, which the plan tells. In that an order has no cause, which takes a byte in the third, MOONHAL3. In that a message has no
// partner to reply to, which takes four now.
ghost use Rattle.std.specs.Prelude.{◌≤◌, ◌<◌, eqb, leb, ltb, length, cond, ◌&&◌, ◌≡◌};
ghost use Rattle.boundary_state.specs.Older.{marked, PlanEnds, is_around, part_around, closing_byte, order_byte, byte_of, renewed_by, renewed, cause_byte, byte_with, with_causes, reply_byte, byte_now, with_replies};

use plan::kind;
use plan::table::{END, LENGTH, Table, WIDTH};

// Whether there are `size` bytes, with this mark in front.
#[tactic(auto, using(crate::proofs::Sets::is_marked))]
pub(crate) fn is_marked(old: &[u8], size: usize, mark: usize) -> bool
    ensures { result ≡ marked size mark old.now }
{
    old.len() == size && store::number_at(old, 0) == mark
}

// Where the plan ends, which starts at 36.
#[tactic(auto, using(crate::proofs::Sets::plan_end))]
fn plan_end(old: &[u8]) -> usize
    ensures { PlanEnds old.now result }
{
    let n = store::number_at(old, 28);
    if n <= 4096 { n + 36 } else { 36 }
}

// Whether row j is a scope that row k stands in, where k comes after j.
#[tactic(auto, using(crate::proofs::Sets::is_around))]
fn is_around(table: &Table, j: usize, k: u32) -> bool
    requires { j < 256 }
    ensures { result ≡ is_around table.now j k }
{
    table[j * WIDTH] == kind::SCOPE && k < table[j * WIDTH + END]
}

// The part that the closing of a scope is remembered for.
#[tactic(auto, using(crate::proofs::Sets::part_around))]
fn part_around(table: &Table, scope: u8) -> u8
    ensures { result ≡ part_around table.now scope scope }
{
    let k = scope as u32;
    for i in (0..scope).rev() {
        if is_around(table, i as usize, k) {
            return i + 1;
        }
    }
    0
}

// One of the two bytes of a closing.
#[tactic(auto, using(crate::proofs::Sets::closing_byte))]
fn closing_byte(table: &Table, scope: u8, half: usize) -> u8
    ensures { result ≡ closing_byte table.now scope half }
{
    if half == 0 {
        scope
    } else {
        part_around(table, scope)
    }
}

// A byte of an order, whose bytes start at `at` in the first version.
fn order_byte(old: &[u8], table: &Table, at: usize, within: usize) -> u8
    requires { (length old.now ≡ 11964) × (at ≤ 11587) × (within < 409) }
    ensures { result ≡ order_byte old.now table.now at within }
{
    if within < 337 {
        return old[at + within];
    }
    if within < 401 {
        let n = within - 337;
        return closing_byte(table, old[at + 337 + n / 2], n % 2);
    }
    old[at + within - 32]
}

// A byte of the state of the second version.
fn byte_of(old: &[u8], table: &Table, i: usize) -> u8
    requires { (length old.now ≡ 11964) × (i < 12476) }
    ensures { result ≡ byte_of old.now table.now i }
{
    if i == 7 {
        return 50;
    }
    if i < 5932 {
        return old[i];
    }
    let n = i - 5932;
    order_byte(old, table, 5932 + n / 409 * 377, n % 409)
}

// All of them.
// Stays: (d) the twin of `cause` and `reply`: one function for the three would take the byte at each place as a closure, and its loop is one line.
#[tactic(auto, using(crate::proofs::Sets::fill))]
fn fill(old: &[u8], table: &Table, state: &mut [u8])
    requires { (length old.now ≡ 11964) × (length state.old ≡ 12476) }
    ensures { state.new ≡ renewed_by old.now table.now }
{
    for i in 0..12476 {
        state[i] = byte_of(old, table, i);
    }
}

// A state of the first version as one of the second.
fn renew(old: &[u8], state: &mut [u8])
    requires { (length old.now ≡ 11964) × (length state.old ≡ 12476) }
    ensures { state.new ≡ renewed old.now }
{
    let mut table = [0u32; LENGTH];
    let mut flags = [0u8; 16];
    let end = plan_end(old);
    // the table alone is asked for: where the plan is refused it is blank
    let _ = plan::accept(&old[36..end], &mut table, &mut flags);
    fill(old, &table, state);
}

// A byte of an order, whose bytes start at `at` in the second version.
#[tactic(auto, using(crate::proofs::Sets::cause_byte))]
fn cause_byte(old: &[u8], at: usize, within: usize) -> u8
    requires { (length old.now ≡ 12476) × (at ≤ 12067) × (within < 410) }
    ensures { result ≡ cause_byte old.now at within }
{
    if within < 409 { old[at + within] } else { 0 }
}

// A byte of the state of the third version.
fn byte_with(old: &[u8], i: usize) -> u8
    requires { (length old.now ≡ 12476) × (i < 12492) }
    ensures { result ≡ byte_with old.now i }
{
    if i == 7 {
        return 51;
    }
    if i < 5932 {
        return old[i];
    }
    let n = i - 5932;
    cause_byte(old, 5932 + n / 410 * 409, n % 410)
}

// A state of the second version as one of the third.
#[tactic(auto, using(crate::proofs::Sets::cause))]
fn cause(old: &[u8], state: &mut [u8])
    requires { (length old.now ≡ 12476) × (length state.old ≡ 12492) }
    ensures { state.new ≡ with_causes old.now }
{
    for i in 0..12492 {
        state[i] = byte_with(old, i);
    }
}

// A byte of a message, whose bytes start at `at` in the third version.
#[tactic(auto, using(crate::proofs::Sets::reply_byte))]
fn reply_byte(old: &[u8], at: usize, within: usize) -> u8
    requires { (length old.now ≡ 12492) × (at ≤ 5904) × (within < 32) }
    ensures { result ≡ reply_byte old.now at within }
{
    if within < 28 { old[at + within] } else { 0 }
}

// A byte of the state of today.
fn byte_now(old: &[u8], i: usize) -> u8
    requires { (length old.now ≡ 12492) × (i < 12748) }
    ensures { result ≡ byte_now old.now i }
{
    if i == 7 {
        return 52;
    }
    if i < 4140 {
        return old[i];
    }
    if i < 6188 {
        let n = i - 4140;
        return reply_byte(old, 4140 + n / 32 * 28, n % 32);
    }
    old[i - 256]
}

// A state of the third version as one of today.
#[tactic(auto, using(crate::proofs::Sets::reply))]
pub(crate) fn reply(old: &[u8], state: &mut [u8])
    requires { (length old.now ≡ 12492) × (length state.old ≡ 12748) }
    ensures { state.new ≡ with_replies old.now }
{
    for i in 0..12748 {
        state[i] = byte_now(old, i);
    }
}

// A state of the second version as one of today.
pub(crate) fn from_second(old: &[u8], state: &mut [u8])
    requires { (length old.now ≡ 12476) × (length state.old ≡ 12748) }
    ensures { state.new ≡ with_replies (with_causes old.now) }
{
    let mut third = [0u8; 12492];
    cause(old, &mut third);
    reply(&third, state);
}

// A state of the first version as one of today.
pub(crate) fn from_first(old: &[u8], state: &mut [u8])
    requires { (length old.now ≡ 11964) × (length state.old ≡ 12748) }
    ensures { state.new ≡ with_replies (with_causes (renewed old.now)) }
{
    let mut second = [0u8; 12476];
    renew(old, &mut second);
    from_second(&second, state);
}

// A state of today as it is.
#[tactic(auto, using(crate::proofs::Sets::copy))]
pub(crate) fn copy(old: &[u8], state: &mut [u8])
    requires { (length old.now ≡ 12748) × (length state.old ≡ 12748) }
    ensures { state.new ≡ old.now }
{
    // Stays: (a) by `copy_from_slice` the archive for C would need `memmove` from outside.
    for i in 0..12748 {
        state[i] = old[i];
    }
}
