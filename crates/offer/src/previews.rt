// The offer shown: what a choice comes to, and how much is on offer.
ghost use Rattle.std.specs.Prelude.{◌≤◌, ◌≡◌};
ghost use Rattle.offer.specs.Seeing.{SeesBy, SeesAll, Previews, amounted, Amounts};

use super::Amount;
use super::slots::{offer_slot, starts};
use beginning::started_order;
use fit::least::least_slot;
use fit::letters::letters_of;
use fit::search::picks_of;
use machine::{State, Step};
use order::Order;
use plan::table::Table;
use sight::Sight;
use sight::counting::{answer, nothing_seen};

// What is seen of the whole offer of some orders and letters: first, for each message that waits, the
// fewest unchecked places of the open receives that it fits, 5 where it fits none; then what each live order has on offer; then what may start.
// The loops stand here and a free slot is passed by, since orders go by value: a call with all of them, or with one, copies them.
#[tactic(auto, using(crate::proofs::Sets::sight_in))]
fn sight_in(
    table: &Table,
    flags: &[u8; 16],
    picks: &[usize; 256],
    orders: [Order; 16],
    activities: usize,
    letters: &[u32; 512],
    waiting: usize,
    choice: usize,
) -> Sight
    requires { (activities ≤ 256) × (waiting ≤ 64) }
    ensures { SeesBy table.now flags.now picks.now orders activities letters.now waiting choice result }
{
    let mut least = [5; 64];
    for o in &orders {
        if o.root == 0 {
            continue;
        }
        least_slot(
            table, flags, picks, *o, activities, letters, waiting, &mut least,
        );
    }
    let mut part = nothing_seen(choice);
    for (slot, o) in orders.iter().enumerate() {
        if o.root == 0 {
            continue;
        }
        part = offer_slot(
            table, flags, picks, *o, slot, activities, letters, waiting, &least, part,
        );
    }
    if waiting == 0 {
        return part;
    }
    let order = started_order(table);
    starts(
        table, flags, picks, orders, order, activities, letters, waiting, part,
    )
}

// What is seen of the whole offer.
#[tactic(auto, using(crate::proofs::Sets::sight_of))]
fn sight_of(
    table: &Table,
    flags: &[u8; 16],
    state: State,
    activities: usize,
    choice: usize,
) -> Sight
    requires { (activities ≤ 256) × (state.waiting ≤ 64) }
    ensures { SeesAll table.now flags.now state activities choice result }
{
    let letters = letters_of(state.messages, state.waiting);
    let picks = picks_of(table);
    sight_in(
        table,
        flags,
        &picks,
        state.orders,
        activities,
        &letters,
        state.waiting,
        choice,
    )
}

// What a choice comes to.
#[tactic(auto, using(crate::proofs::Sets::preview_by))]
pub(crate) fn preview_by(
    table: &Table,
    flags: &[u8; 16],
    state: State,
    activities: usize,
    choice: usize,
) -> Step
    requires { (activities ≤ 256) × (state.waiting ≤ 64) }
    ensures { Previews table.now flags.now state activities choice result }
{
    let s = sight_of(table, flags, state, activities, choice);
    answer(choice, s)
}

// How much was seen on offer, where the choice counted down was 4,294,967,295.
#[tactic(auto, using(crate::proofs::Sets::amount_of))]
fn amount_of(s: Sight) -> Amount
    ensures { result ≡ amounted s }
{
    Amount {
        many: 4294967295usize.saturating_sub(s.pointer.left),
        held: s.held,
    }
}

// How much is on offer.
#[tactic(auto, using(crate::proofs::Sets::offered_by))]
pub(crate) fn offered_by(table: &Table, flags: &[u8; 16], state: State, activities: usize) -> Amount
    requires { (activities ≤ 256) × (state.waiting ≤ 64) }
    ensures { Amounts table.now flags.now state activities result }
{
    let s = sight_of(table, flags, state, activities, 4294967295);
    amount_of(s)
}
