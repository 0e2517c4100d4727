// The window over the whole offer.
ghost use Rattle.std.specs.Prelude.{◌≤◌};
ghost use Rattle.listing.specs.Listing.{ListsBy, ListsAll, holding};

use super::Window;
use super::letters::list_starts;
use super::rows::list_slot;
use beginning::started_order;
use fit::least::least_slot;
use fit::letters::letters_of;
use fit::search::picks_of;
use machine::State;
use order::Order;
use plan::table::Table;

// First, for each message that waits, the fewest unchecked places of the open receives that it fits; then what each live order adds; then what may start.
// The loops stand here and a free slot is passed by, since orders go by value: a call with all of them, or with one, copies them.
// Stays: (d) the twin of `sight_in` of the crate offer: one function for both would take what is done at each order and at the letters as two closures of ten captures each.
fn list_in(
    table: &Table,
    flags: &[u8; 16],
    picks: &[usize; 256],
    orders: [Order; 16],
    activities: usize,
    letters: &[u32; 512],
    waiting: usize,
    first: u32,
    out: &mut [u64],
) -> Window
    requires { waiting ≤ 64 }
    ensures { ListsBy table.now flags.now picks.now orders activities letters.now waiting (holding first 0 out.old) (holding result.skip result.at out.new) }
{
    let mut least = [5; 64];
    for o in &orders {
        if o.root == 0 {
            continue;
        }
        least_slot(
            table, flags, picks, *o, activities, letters, waiting, &mut least,
        );
    }
    let mut part = Window { skip: first, at: 0 };
    for (slot, o) in orders.iter().enumerate() {
        if o.root == 0 {
            continue;
        }
        part = list_slot(
            table, flags, picks, *o, slot, activities, letters, waiting, &least, part, out,
        );
    }
    let order = started_order(table);
    list_starts(
        table, flags, picks, orders, order, activities, letters, waiting, part, out,
    )
}

// The window of a state's offer.
pub(crate) fn list_of(
    table: &Table,
    flags: &[u8; 16],
    state: State,
    activities: usize,
    first: u32,
    out: &mut [u64],
) -> Window
    requires { state.waiting ≤ 64 }
    ensures { ListsAll table.now flags.now state activities (holding first 0 out.old) (holding result.skip result.at out.new) }
{
    let letters = letters_of(state.messages, state.waiting);
    let picks = picks_of(table);
    list_in(
        table,
        flags,
        &picks,
        state.orders,
        activities,
        &letters,
        state.waiting,
        first,
        out,
    )
}
