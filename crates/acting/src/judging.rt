// What is open after a step, judged until no two are for one thing.
ghost use Rattle.std.specs.Prelude.{◌≡◌};
ghost use Rattle.order.specs.Answering.{goes_on_after, Settles};

use super::root::acted;
use order::{End, Next};
use plan::table::Table;
use settling::conflict::first_conflict;
use settling::ranks::is_lower;

// Whether an order goes on.
#[tactic(auto, unfolding(order::specs::Answering::goes_on_after))]
fn goes_on(end: End) -> bool
    ensures { result ≡ goes_on_after end }
{
    matches!(end, End::None)
}

// A raise in place of the higher-numbered of two that are open for one thing, again and again. Each leaves an order lower than before, of any plan's
// table (settling/proofs/Settling.antt); of a table that spells no plan, one that does not is the last.
pub(crate) fn settled(table: &Table, activities: usize, next: Next) -> Next
    ensures { Settles table.now activities next result }
{
    let mut m = next;
    while goes_on(m.end) {
        let o = m.order;
        let Some(k) = first_conflict(table, activities, &o.marks) else {
            return m;
        };
        let n = acted(table, activities, o, k, true);
        let p = n.order;
        if !is_lower(table, activities, o.root, &o.marks, p.root, &p.marks) {
            return n;
        }
        m = n;
    }
    m
}
