// Whether a message fits a receive or an arm of the plan, and how many of its places are unchecked. A table has 256 rows, and 64 messages may wait: beyond them
// nothing is read, and the answer says nothing.
ghost use Rattle.std.specs.Prelude.{◌+◌, ◌≤◌, ◌<◌, eqb, ◌||◌, ◌≡◌};
ghost use Rattle.fit.specs.Answering.{known_value, sixteenth, KnowsOrder, AsksRow, Agrees, FitsRow, Costs, UncheckedRow};

use order::Order;
use plan::table::{COUNT, OPERATION, PARTNER, Table, VARIABLES, WIDTH};

// What is asked at the place of a variable: one more than its value where it is checked, 0 where it is not.
#[tactic(auto, using(crate::proofs::Sets::known_value))]
fn known_value(flag: u8, bound: u8, value: u32) -> u64
    ensures { result ≡ known_value flag bound value }
{
    if flag == 1 && bound == 1 {
        u64::from(value) + 1
    } else {
        0
    }
}

// What an order asks at the places of its variables.
#[tactic(auto, using(crate::proofs::Sets::known_of))]
pub fn known_of(flags: &[u8; 16], order: Order) -> [u64; 16]
    ensures { KnowsOrder flags.now order result }
{
    let mut out = [0; 16];
    for i in 0..16 {
        out[i] = known_value(flags[i], order.bound[i], order.values[i]);
    }
    out
}

// What is asked at the place of variable v.
#[tactic(auto, using(crate::proofs::Sets::known_at))]
fn known_at(known: &[u64; 16], v: u32) -> u64
    ensures { result ≡ sixteenth known.now v }
{
    if v < 16 { known[v as usize] } else { 0 }
}

// What is asked at the places of row k.
#[tactic(auto, using(crate::proofs::Sets::asked_at))]
pub fn asked_at(table: &Table, known: &[u64; 16], k: usize) -> [u64; 4]
    ensures { AsksRow table.now known.now k result }
{
    let mut out = [0; 4];
    if 256 <= k {
        return out;
    }
    for i in 0..4 {
        out[i] = known_at(known, table[k * WIDTH + VARIABLES + i]);
    }
    out
}

// Whether a place at which this is asked may hold a value.
#[tactic(auto, using(crate::proofs::Sets::allows))]
fn allows(asked: u64, value: u32) -> bool
    ensures { result ≡ (eqb asked 0 || eqb asked (value + 1)) }
{
    asked == 0 || asked == u64::from(value) + 1
}

// Whether the first `count` values of the message at place j are those that are asked.
#[tactic(auto, using(crate::proofs::Sets::agrees_at))]
fn agrees_at(asked: &[u64; 4], letters: &[u32; 512], j: usize, count: usize) -> bool
    requires { (j < 64) × (count ≤ 4) }
    ensures { Agrees asked.now letters.now j count result }
{
    for i in 0..count {
        if !allows(asked[i], letters[j * 8 + 3 + i]) {
            return false;
        }
    }
    true
}

// Whether the message at place j fits the receive or arm in row k, of which this is asked: all 32 bits of each checked place count.
#[tactic(auto, using(crate::proofs::Sets::fits_at))]
pub fn fits_at(table: &Table, k: usize, asked: &[u64; 4], letters: &[u32; 512], j: usize) -> bool
    ensures { FitsRow table.now k asked.now letters.now j result }
{
    if 256 <= k || 64 <= j {
        return false;
    }
    let count = letters[j * 8 + 2];
    letters[j * 8] == table[k * WIDTH + PARTNER]
        && letters[j * 8 + 1] == table[k * WIDTH + OPERATION]
        && count == table[k * WIDTH + COUNT]
        && count <= 4
        && agrees_at(asked, letters, j, count as usize)
}

// 1 where any value will do, and 0 where not.
#[tactic(auto, using(crate::proofs::Sets::unchecked_place))]
fn unchecked_place(asked: u64) -> usize
    ensures { Costs asked result }
{
    if asked == 0 { 1 } else { 0 }
}

// How many places of the receive or arm in row k are unchecked.
#[tactic(auto, using(crate::proofs::Sets::unchecked_at))]
pub fn unchecked_at(table: &Table, k: usize, asked: &[u64; 4]) -> usize
    ensures { UncheckedRow table.now k asked.now result }
{
    if 256 <= k {
        return 0;
    }
    let count = table[k * WIDTH + COUNT];
    if 4 < count {
        return 0;
    }
    let mut n = 0;
    for i in 0..count as usize {
        n += unchecked_place(asked[i]);
    }
    n
}
