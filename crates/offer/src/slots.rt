// What the orders have on offer, and what may start.
ghost use Rattle.std.specs.Prelude.{◌≤◌, ◌<◌};
ghost use Rattle.fit.specs.Answering.{message_at};
ghost use Rattle.fit.specs.Lines.{Rows, Wholes};
ghost use Rattle.offer.specs.Seeing.{Frees, Informed, offer_live, start_line, Could, StartsLetter, Starts, StartsOrder};
ghost use Rattle.fit.specs.Receiving.{Slots, Lent};
ghost use Rattle.sight.specs.Sights.{seen};

use fit::fitness::known_of;
use fit::search::{first_receiver, takes_at};
use order::Order;
use plan::table::Table;
use sight::Sight;
use sight::counting::{shown, withheld};
use sight::memory::parts_of;
use sight::rows::{cut_rows, offer_rows};

// What the order in a slot has on offer.
#[tactic(auto, using(crate::proofs::Sets::offer_slot))]
pub(crate) fn offer_slot(
    table: &Table,
    flags: &[u8; 16],
    picks: &[usize; 256],
    order: Order,
    slot: usize,
    activities: usize,
    letters: &[u32; 512],
    waiting: usize,
    least: &[usize; 64],
    s: Sight,
) -> Sight
    requires { (activities ≤ 256) × (waiting ≤ 64) }
    ensures { Slots table.now activities (Informed table.now picks.now flags.now letters.now waiting least.now) (offer_live waiting) slot order s result }
{
    if order.root == 0 {
        return s;
    }
    let marks = order.marks;
    let bound = order.bound;
    let values = order.values;
    let parts = parts_of(order);
    let known = known_of(flags, order);
    let cutting = cut_rows(table, &marks, activities);
    offer_rows(
        table, picks, &marks, &known, &bound, &values, &parts, order.kept, slot, activities,
        cutting, letters, waiting, least, s,
    )
}

// The lowest free slot, 16 where there is none.
#[tactic(auto, using(crate::proofs::Sets::free_slot))]
pub(crate) fn free_slot(orders: [Order; 16]) -> usize
    ensures { Frees orders result }
{
    for (i, o) in orders.iter().enumerate() {
        if o.root == 0 {
            return i;
        }
    }
    16
}

// What a message adds at row k of an order as it starts.
#[tactic(auto, using(crate::proofs::Sets::start_row))]
fn start_row(
    table: &Table,
    picks: &[usize; 256],
    marks: &[u8; 256],
    known: &[u64; 16],
    free: usize,
    k: usize,
    letters: &[u32; 512],
    j: usize,
    s: Sight,
) -> Sight
    requires { (k < 256) × (j < 64) }
    ensures { Rows table.now k (Lent table.now picks.now marks.now known.now) (start_line free j (message_at letters.now j)) s result }
{
    if !takes_at(table, picks, marks, known, k, letters, j) {
        s
    } else if free < 16 {
        shown(s, free, k, j)
    } else {
        withheld(s)
    }
}

// What a message adds at all rows of an order as it starts.
#[tactic(auto, using(crate::proofs::Sets::start_rows))]
fn start_rows(
    table: &Table,
    picks: &[usize; 256],
    marks: &[u8; 256],
    known: &[u64; 16],
    free: usize,
    activities: usize,
    letters: &[u32; 512],
    j: usize,
    s: Sight,
) -> Sight
    requires { (activities ≤ 256) × (j < 64) }
    ensures { Wholes table.now activities (Lent table.now picks.now marks.now known.now) (start_line free j (message_at letters.now j)) s result }
{
    let mut c = s;
    for k in 0..activities {
        c = start_row(table, picks, marks, known, free, k, letters, j, c);
    }
    c
}

// Whether a message would be taken by an order as it starts.
#[tactic(auto, using(crate::proofs::Sets::could_start))]
fn could_start(
    table: &Table,
    picks: &[usize; 256],
    marks: &[u8; 256],
    known: &[u64; 16],
    activities: usize,
    letters: &[u32; 512],
    j: usize,
) -> bool
    requires { (activities ≤ 256) × (j < 64) }
    ensures { Could table.now picks.now marks.now known.now activities letters.now j result }
{
    for k in 0..activities {
        if takes_at(table, picks, marks, known, k, letters, j) {
            return true;
        }
    }
    false
}

// What the message at place j may start: whether it fits an open receive is asked only where an order as it starts would take it.
#[tactic(auto, using(crate::proofs::Sets::start_letter))]
pub(crate) fn start_letter(
    table: &Table,
    flags: &[u8; 16],
    picks: &[usize; 256],
    orders: [Order; 16],
    marks: &[u8; 256],
    known: &[u64; 16],
    free: usize,
    activities: usize,
    letters: &[u32; 512],
    j: usize,
    s: Sight,
) -> Sight
    requires { (activities ≤ 256) × (j < 64) }
    ensures { StartsLetter seen table.now flags.now picks.now orders marks.now known.now free activities letters.now j s result }
{
    if could_start(table, picks, marks, known, activities, letters, j)
        && first_receiver(table, flags, picks, orders, activities, letters, j).is_none()
    {
        start_rows(table, picks, marks, known, free, activities, letters, j, s)
    } else {
        s
    }
}

// What the messages that wait may start.
#[tactic(auto, using(crate::proofs::Sets::start_letters))]
fn start_letters(
    table: &Table,
    flags: &[u8; 16],
    picks: &[usize; 256],
    orders: [Order; 16],
    marks: &[u8; 256],
    known: &[u64; 16],
    free: usize,
    activities: usize,
    letters: &[u32; 512],
    waiting: usize,
    s: Sight,
) -> Sight
    requires { (activities ≤ 256) × (waiting ≤ 64) }
    ensures { Starts seen table.now flags.now picks.now orders marks.now known.now free activities letters.now waiting s result }
{
    let mut c = s;
    for j in 0..waiting {
        c = start_letter(
            table, flags, picks, orders, marks, known, free, activities, letters, j, c,
        );
    }
    c
}

// What may start in the lowest free slot, where `order` is an order as it starts.
#[tactic(auto, using(crate::proofs::Sets::starts))]
pub(crate) fn starts(
    table: &Table,
    flags: &[u8; 16],
    picks: &[usize; 256],
    orders: [Order; 16],
    order: Order,
    activities: usize,
    letters: &[u32; 512],
    waiting: usize,
    s: Sight,
) -> Sight
    requires { (activities ≤ 256) × (waiting ≤ 64) }
    ensures { StartsOrder seen table.now flags.now picks.now orders order activities letters.now waiting s result }
{
    let free = free_slot(orders);
    let marks = order.marks;
    let known = known_of(flags, order);
    start_letters(
        table, flags, picks, orders, &marks, &known, free, activities, letters, waiting, s,
    )
}
