// What the rows of an order add to a window.
ghost use Rattle.std.specs.Prelude.{◌≡◌};
ghost use Rattle.fit.specs.Folds.{lesser};
ghost use Rattle.fit.specs.Lines.{Wholes};
ghost use Rattle.fit.specs.Receiving.{Slots};
ghost use Rattle.machine.specs.Offer.{offering};
ghost use Rattle.offer.specs.Acts.{act_line, act_live};
ghost use Rattle.offer.specs.Seeing.{Informed};
ghost use Rattle.sight.specs.Sights.{Opening};
ghost use Rattle.listing.specs.Listing.{holding, offer_number, listing, Lists, RowOf};

use super::Window;
use answers::{put, step_number};
use fit::fitness::known_of;
use machine::Step;
use order::{End, Order};
use plan::table::Table;
use sight::Pointer;
use sight::counting::nothing_seen;
use sight::memory::parts_of;
use sight::one::row_sight;
use sight::rows::cut_rows;

// The step that a choice was found to be, as a number.
pub(crate) fn pointer_number(p: Pointer) -> u64
    ensures { result ≡ offer_number (offering p.slot p.activity p.place) }
{
    step_number(Step {
        refusal: 0,
        slot: p.slot,
        activity: p.activity,
        place: p.place,
        end: End::None,
        fault: 0,
    })
}

// The lesser of what is left of a choice and what was to be passed by.
pub(crate) fn lesser_of(left: usize, skip: u32) -> u32
    ensures { result ≡ lesser left skip }
{
    if left < skip as usize {
        left as u32
    } else {
        skip
    }
}

// What row k adds: it is asked for one choice after the other, from the first that is wanted on.
fn list_row(
    table: &Table,
    picks: &[usize; 256],
    marks: &[u8; 256],
    known: &[u64; 16],
    bound: &[u8; 16],
    values: &[u32; 16],
    parts: &[u8; 32],
    kept: usize,
    slot: usize,
    k: usize,
    cutting: bool,
    letters: &[u32; 512],
    waiting: usize,
    least: &[usize; 64],
    first: u32,
    from: usize,
    out: &mut [u64],
) -> Window
    ensures { Lists (RowOf table.now picks.now marks.now known.now bound.now values.now parts.now kept slot k cutting letters.now waiting least.now) (holding first from out.old) (holding result.skip result.at out.new) }
{
    let mut skip = first;
    let mut c = first as usize;
    for at in from..out.len() {
        let p = row_sight(
            table,
            picks,
            marks,
            known,
            bound,
            values,
            parts,
            kept,
            slot,
            k,
            cutting,
            letters,
            waiting,
            least,
            nothing_seen(c),
        )
        .pointer;
        if !p.found {
            return Window {
                skip: lesser_of(p.left, skip),
                at,
            };
        }
        put(out, at, pointer_number(p));
        skip = 0;
        c += 1;
    }
    Window {
        skip,
        at: from.max(out.len()),
    }
}

// What all rows of an order add.
fn list_rows(
    table: &Table,
    picks: &[usize; 256],
    marks: &[u8; 256],
    known: &[u64; 16],
    bound: &[u8; 16],
    values: &[u32; 16],
    parts: &[u8; 32],
    kept: usize,
    slot: usize,
    activities: usize,
    cutting: bool,
    letters: &[u32; 512],
    waiting: usize,
    least: &[usize; 64],
    w: Window,
    out: &mut [u64],
) -> Window
    ensures { Wholes table.now activities (Opening table.now picks.now marks.now known.now bound.now values.now parts.now kept letters.now waiting least.now) (act_line listing cutting waiting slot) (holding w.skip w.at out.old) (holding result.skip result.at out.new) }
{
    let mut c = w;
    for k in 0..activities {
        c = list_row(
            table, picks, marks, known, bound, values, parts, kept, slot, k, cutting, letters,
            waiting, least, c.skip, c.at, out,
        );
    }
    c
}

// What the order in a slot adds.
pub(crate) fn list_slot(
    table: &Table,
    flags: &[u8; 16],
    picks: &[usize; 256],
    order: Order,
    slot: usize,
    activities: usize,
    letters: &[u32; 512],
    waiting: usize,
    least: &[usize; 64],
    w: Window,
    out: &mut [u64],
) -> Window
    ensures { Slots table.now activities (Informed table.now picks.now flags.now letters.now waiting least.now) (act_live listing waiting) slot order (holding w.skip w.at out.old) (holding result.skip result.at out.new) }
{
    if order.root == 0 {
        return w;
    }
    let marks = order.marks;
    let bound = order.bound;
    let values = order.values;
    let parts = parts_of(order);
    let known = known_of(flags, order);
    let cutting = cut_rows(table, &marks, activities);
    list_rows(
        table, picks, &marks, &known, &bound, &values, &parts, order.kept, slot, activities,
        cutting, letters, waiting, least, w, out,
    )
}
