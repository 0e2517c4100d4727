// The search for an open receive that a message fits: it ends at the first.
ghost use Rattle.std.specs.Prelude.{◌<◌, cond, ◌≡◌};
ghost use Rattle.order.specs.State.{is_live};
ghost use Rattle.fit.specs.Answering.{open_pick, around_from, Picks, ArmAt, ArmsRow};
ghost use Rattle.fit.specs.Receiving.{OpensRow, TakesRow, Receives};

use super::Receiver;
use super::fitness::{asked_at, fits_at, known_of};
use order::Order;
use plan::kind;
use plan::table::{END, Table, WIDTH};

// Whether row j is an active pick.
#[tactic(auto, using(crate::proofs::Sets::open_pick))]
fn open_pick(table: &Table, marks: &[u8; 256], j: usize) -> bool
    requires { j < 256 }
    ensures { result ≡ open_pick table.now marks.now j }
{
    table[j * WIDTH] == kind::PICK && marks[j] == 1
}

// The nearest row before row k that it stands within, 256 where there is none.
#[tactic(auto, using(crate::proofs::Sets::row_around))]
fn row_around(table: &Table, k: usize) -> usize
    requires { k < 256 }
    ensures { result ≡ around_from table.now k k }
{
    let n = k as u32;
    for j in (0..k).rev() {
        if n < table[j * WIDTH + END] {
            return j;
        }
    }
    256
}

// Whether the arm in row k is open, where the rows that the arms stand within are not at hand.
#[tactic(auto, using(crate::proofs::Sets::arm_at))]
pub fn arm_at(table: &Table, marks: &[u8; 256], k: usize) -> bool
    ensures { ArmAt table.now marks.now k result }
{
    if 256 <= k {
        return false;
    }
    let j = row_around(table, k);
    j < 256 && open_pick(table, marks, j)
}

// The rows that the arms stand within.
#[tactic(auto, using(crate::proofs::Sets::picks_of))]
pub fn picks_of(table: &Table) -> [usize; 256]
    ensures { Picks table.now result }
{
    let mut out = [256; 256];
    for k in 0..256 {
        if table[k * WIDTH] == kind::ARM {
            out[k] = row_around(table, k);
        }
    }
    out
}

// Whether the arm in row k is open: the row that it stands within is an active pick.
#[tactic(auto, using(crate::proofs::Sets::arm_open))]
pub fn arm_open(table: &Table, picks: &[usize; 256], marks: &[u8; 256], k: usize) -> bool
    ensures { ArmsRow table.now picks.now marks.now k result }
{
    if 256 <= k {
        return false;
    }
    let j = picks[k];
    j < 256 && open_pick(table, marks, j)
}

// Whether row k is an open receive or arm.
#[tactic(auto, using(crate::proofs::Sets::open_at))]
pub(crate) fn open_at(table: &Table, picks: &[usize; 256], marks: &[u8; 256], k: usize) -> bool
    requires { k < 256 }
    ensures { OpensRow table.now picks.now marks.now k result }
{
    match table[k * WIDTH] {
        kind::RECEIVE | kind::ASKING_RECEIVE => marks[k] == 1,
        kind::ARM => arm_open(table, picks, marks, k),
        _ => false,
    }
}

// Whether it is one that the message at place j fits.
#[tactic(auto, using(crate::proofs::Sets::takes_at))]
pub fn takes_at(
    table: &Table,
    picks: &[usize; 256],
    marks: &[u8; 256],
    known: &[u64; 16],
    k: usize,
    letters: &[u32; 512],
    j: usize,
) -> bool
    ensures { TakesRow table.now picks.now marks.now known.now k letters.now j result }
{
    if 256 <= k || !open_at(table, picks, marks, k) {
        return false;
    }
    let asked = asked_at(table, known, k);
    fits_at(table, k, &asked, letters, j)
}

// How many activities of an order are looked at: none where its slot is free.
#[tactic(auto, using(crate::proofs::Sets::rows_of))]
fn rows_of(order: Order, activities: usize) -> usize
    ensures { result ≡ cond (is_live order) activities 0 }
{
    if order.root == 0 { 0 } else { activities }
}

// The first open receive of a live order that the message at place j fits: live slots ascending, in each activities ascending.
#[tactic(auto, using(crate::proofs::Sets::first_receiver))]
pub fn first_receiver(
    table: &Table,
    flags: &[u8; 16],
    picks: &[usize; 256],
    orders: [Order; 16],
    activities: usize,
    letters: &[u32; 512],
    j: usize,
) -> Option<Receiver>
    ensures { Receives table.now flags.now picks.now orders activities letters.now j result }
{
    let mut found = None;
    'search: for slot in 0..16 {
        let order = orders[slot];
        let marks = order.marks;
        let known = known_of(flags, order);
        let rows = rows_of(order, activities);
        for k in 0..rows {
            if takes_at(table, picks, &marks, &known, k, letters, j) {
                found = Some(Receiver { slot, activity: k });
                break 'search;
            }
        }
    }
    found
}
