// What the messages that may start an order add to a window.
ghost use Rattle.std.specs.Prelude.{◌≤◌, ◌<◌};
ghost use Rattle.offer.specs.Seeing.{Starts, StartsOrder};
ghost use Rattle.listing.specs.Listing.{holding, listing, Lists, LetterOf};

use super::Window;
use super::rows::{lesser_of, pointer_number};
use answers::put;
use fit::fitness::known_of;
use offer::letters::{letter_sight, lowest_free};
use order::Order;
use plan::table::Table;
use sight::counting::nothing_seen;

// What the message at place j adds: it is asked for one choice after the other, from the first that is wanted on.
// Stays: (d) the twin of `list_row`: one function for both would take what is seen at a choice as a closure of twelve captures, and say no more.
fn list_letter(
    table: &Table,
    flags: &[u8; 16],
    picks: &[usize; 256],
    orders: [Order; 16],
    marks: &[u8; 256],
    known: &[u64; 16],
    free: usize,
    activities: usize,
    letters: &[u32; 512],
    j: usize,
    first: u32,
    from: usize,
    out: &mut [u64],
) -> Window
    requires { j < 64 }
    ensures { Lists (LetterOf table.now flags.now picks.now orders marks.now known.now free activities letters.now j) (holding first from out.old) (holding result.skip result.at out.new) }
{
    let mut skip = first;
    let mut c = first as usize;
    for at in from..out.len() {
        let p = letter_sight(
            table,
            flags,
            picks,
            orders,
            marks,
            known,
            free,
            activities,
            letters,
            j,
            nothing_seen(c),
        )
        .pointer;
        if !p.found {
            return Window {
                skip: lesser_of(p.left, skip),
                at,
            };
        }
        put(out, at, pointer_number(p));
        skip = 0;
        c += 1;
    }
    Window {
        skip,
        at: from.max(out.len()),
    }
}

// What the messages that wait add.
fn list_letters(
    table: &Table,
    flags: &[u8; 16],
    picks: &[usize; 256],
    orders: [Order; 16],
    marks: &[u8; 256],
    known: &[u64; 16],
    free: usize,
    activities: usize,
    letters: &[u32; 512],
    waiting: usize,
    w: Window,
    out: &mut [u64],
) -> Window
    requires { waiting ≤ 64 }
    ensures { Starts listing table.now flags.now picks.now orders marks.now known.now free activities letters.now waiting (holding w.skip w.at out.old) (holding result.skip result.at out.new) }
{
    let mut c = w;
    for j in 0..waiting {
        c = list_letter(
            table, flags, picks, orders, marks, known, free, activities, letters, j, c.skip, c.at,
            out,
        );
    }
    c
}

// What they add in the lowest free slot, where `order` is an order as it starts.
pub(crate) fn list_starts(
    table: &Table,
    flags: &[u8; 16],
    picks: &[usize; 256],
    orders: [Order; 16],
    order: Order,
    activities: usize,
    letters: &[u32; 512],
    waiting: usize,
    w: Window,
    out: &mut [u64],
) -> Window
    requires { waiting ≤ 64 }
    ensures { StartsOrder listing table.now flags.now picks.now orders order activities letters.now waiting (holding w.skip w.at out.old) (holding result.skip result.at out.new) }
{
    let free = lowest_free(orders);
    let marks = order.marks;
    let known = known_of(flags, order);
    list_letters(
        table, flags, picks, orders, &marks, &known, free, activities, letters, waiting, w, out,
    )
}
