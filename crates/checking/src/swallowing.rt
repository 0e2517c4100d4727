// Scopes that swallow a fault: their fault part is empty, and the order goes on behind them as if nothing had been.
use super::binding::may_lack_one;
use super::partners::may_have_none;
use super::rivals::is_contested;
use super::uses::computes;
use super::ways::{Part, part_in};
use drawing::{after, entry, fault_of, general_of, is_scope, scope_of};
use plan::kind;
use plan::table::{KIND, Table};

// Whether an activity of this kind is a raise, plain or with a number.
fn is_raise(kind: u32) -> bool {
    matches!(kind, kind::RAISE | kind::NUMBERED_RAISE)
}

// Whether activity n may fault: a raise, a sum or difference, a variable that may be unbound or hold no partner, or a receive beside another for the same
// thing.
fn may_fault(table: &Table, n: usize) -> bool {
    is_raise(entry(table, n, KIND))
        || computes(table, n)
        || is_contested(table, n)
        || may_have_none(table, n)
        || may_lack_one(table, n)
}

// Whether a fault of activity n faults scope s: n stands in its body, or in a fault part of a scope there.
fn reaches(table: &Table, s: usize, n: usize) -> bool {
    match scope_of(table, n) {
        Some(inner) if inner == s => part_in(table, s, n) == Part::Body,
        Some(inner) => scope_of(table, inner) == Some(s) && part_in(table, inner, n) == Part::Fault,
        None => false,
    }
}

// Whether something in the body of scope s may fault it.
fn may_be_faulted(table: &Table, s: usize) -> bool {
    (after(s)..fault_of(table, s)).any(|n| reaches(table, s, n) && may_fault(table, n))
}

// Whether activity s is a scope that may fault, and whose fault part, the general one, is empty.
pub(crate) fn swallows(table: &Table, s: usize) -> bool {
    is_scope(entry(table, s, KIND))
        && entry(table, general_of(table, s), KIND) == kind::EMPTY
        && may_be_faulted(table, s)
}
