// Variables that are used before anything binds them.
use super::uses::{binds, uses};
use super::ways::{may_precede, must_precede};
use plan::table::Table;

// Whether something binds variable v before activity n on some way there.
fn is_ever_bound(table: &Table, n: usize, v: u32) -> bool {
    (0..256).any(|m| binds(table, m, v) && may_precede(table, m, n))
}

// Whether activity n uses variable v, and nothing before it binds it on any way there.
pub(crate) fn is_unbound(table: &Table, n: usize, v: u32) -> bool {
    uses(table, n, v) && !is_ever_bound(table, n, v)
}

// Whether something binds variable v before activity n on every way there, as far as the plan shows it.
fn is_always_bound(table: &Table, n: usize, v: u32) -> bool {
    (0..256).any(|m| binds(table, m, v) && must_precede(table, m, n))
}

// Whether activity n uses a variable that may be unbound there.
pub(crate) fn may_lack_one(table: &Table, n: usize) -> bool {
    (0..16).any(|v| uses(table, n, v) && !is_always_bound(table, n, v))
}
