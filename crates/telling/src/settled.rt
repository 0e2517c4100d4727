// The raises behind a step's own deed: while it leaves two receives or arms of its order open for one thing, a fault is raised in place of the
// higher-numbered. The order that the step leaves has no such pair any more, so what was done is done here once more, from the order before the step.
use checking::is_same_thing;
use drawing::{Out, entry};
use order::{End, Next, Order};
use plan::kind;
use plan::table::{KIND, Table};
use settling::conflict::first_conflict;

// The order that has the step: a new one where it had not begun.
fn begun(table: &Table, order: Order) -> Order {
    if order.root == 0 {
        return beginning::started_order(table);
    }
    order
}

// The order after the step's own deed, before it is judged. A message gives its values, and then whom to reply to.
pub(crate) fn deed_of(
    table: &Table,
    activities: usize,
    order: Order,
    n: usize,
    given: [u32; 5],
) -> Next {
    let o = begun(table, order);
    let p = acting::taken_order(table, activities, o, n, given);
    acting::acted(table, activities, p, n, false)
}

// The higher-numbered of two that are open for one thing, where two are, and the order has not ended.
fn clash_in(table: &Table, activities: usize, end: End, marks: &[u8; 256]) -> Option<usize> {
    match end {
        End::None => first_conflict(table, activities, marks),
        End::Well | End::Handled | End::Failed | End::Left => None,
    }
}

fn mark_at(marks: &[u8; 256], n: usize) -> u8 {
    marks.get(n).copied().unwrap_or(0)
}

// Whether row n is an open receive or arm.
fn is_open(table: &Table, picks: &[usize; 256], marks: &[u8; 256], n: usize) -> bool {
    match entry(table, n, KIND) {
        kind::RECEIVE | kind::ASKING_RECEIVE => mark_at(marks, n) == 1,
        kind::ARM => fit::search::arm_open(table, picks, marks, n),
        _ => false,
    }
}

// The lower-numbered of the pair whose higher number is k.
fn lower_of(table: &Table, picks: &[usize; 256], marks: &[u8; 256], k: usize) -> usize {
    (0..k)
        .find(|j| is_open(table, picks, marks, *j) && is_same_thing(table, *j, k))
        .unwrap_or(k)
}

// A receive or an arm by its number.
fn put_row(out: &mut Out, table: &Table, n: usize) {
    if entry(table, n, KIND) == kind::ARM {
        out.put(b"arm");
    } else {
        out.put(b"receive");
    }
    out.put_next(n as u64);
}

fn put_raise(out: &mut Out, table: &Table, picks: &[usize; 256], marks: &[u8; 256], k: usize) {
    out.put(b"; ");
    put_row(out, table, k);
    out.put(b" was open for the same thing as ");
    put_row(out, table, lower_of(table, picks, marks, k));
    out.put(b": it raised a fault");
}

// Each such raise behind an order that moved to this. A row faults once in a step at most: there are never more than 256.
pub(crate) fn put_raises(out: &mut Out, table: &Table, activities: usize, next: Next) {
    let picks = fit::search::picks_of(table);
    let mut m = next;
    for _ in 0..256 {
        let Some(k) = clash_in(table, activities, m.end, &m.order.marks) else {
            return;
        };
        put_raise(out, table, &picks, &m.order.marks, k);
        m = acting::acted(table, activities, m.order, k, true);
    }
}
