// Undo parts that are forgotten, and undo parts whose variables are set again before they run.
use super::uses::{binds, uses};
use super::ways::{Part, around, is_within, keeper_of, part_in, repeats};
use drawing::{after, end_of, entry, fault_of, has_undo, is_correlation, undo_of};
use plan::kind;
use plan::table::{KIND, Table};

// Whether activity t is a scope whose undo part does something, and that is remembered for scope s when that closes.
fn is_undone_for(table: &Table, s: usize, t: usize) -> bool {
    has_undo(entry(table, t, KIND))
        && keeper_of(table, t) == Some(s)
        && entry(table, undo_of(table, t), KIND) != kind::EMPTY
}

fn has_undone(table: &Table, s: usize) -> bool {
    (after(s)..fault_of(table, s)).any(|t| is_undone_for(table, s, t))
}

// Whether activity s is a scope with an empty undo part around scopes with one: once it closes they are forgotten.
pub(crate) fn forgets(table: &Table, s: usize) -> bool {
    has_undo(entry(table, s, KIND))
        && entry(table, undo_of(table, s), KIND) == kind::EMPTY
        && has_undone(table, s)
}

// Whether m stands in the body that a scope is remembered for in the end: that of `outer`, the nearest scope around it with an undo part, or of the root.
fn is_in_reach(table: &Table, outer: Option<usize>, m: usize) -> bool {
    match outer {
        Some(outer) => is_within(table, outer, m) && part_in(table, outer, m) == Part::Body,
        None => is_within(table, 0, m),
    }
}

// The first activity of that body.
fn reach_of(outer: Option<usize>) -> usize {
    match outer {
        Some(outer) => after(outer),
        None => 0,
    }
}

fn is_behind(table: &Table, s: usize, m: usize) -> bool {
    match around(table, s, m) {
        Some(a) if a != s => match entry(table, a, KIND) {
            kind::SEQUENCE => s < m,
            kind::FLOW => true,
            _ => false,
        },
        _ => false,
    }
}

// Whether m may run after scope s has closed, and before it is undone.
fn may_follow(table: &Table, s: usize, m: usize) -> bool {
    let outer = keeper_of(table, s);
    is_in_reach(table, outer, m)
        && (is_behind(table, s, m) || repeats(table, reach_of(outer), m, s))
}

fn is_changed(table: &Table, s: usize, v: u32) -> bool {
    (0..256).any(|m| binds(table, m, v) && may_follow(table, s, m))
}

// Whether the undo part of scope s goes by a variable v that it does not bind itself.
fn goes_by(table: &Table, s: usize, v: u32) -> bool {
    let from = undo_of(table, s);
    let to = end_of(table, s);
    (from..to).any(|n| uses(table, n, v)) && !(from..to).any(|n| binds(table, n, v))
}

// Whether activity s is a scope whose undo part goes by variable v, which may be set again after the scope. (A variable that is for correlation keeps
// its value once it has one.)
pub(crate) fn loses(table: &Table, correlation: &[u8; 16], s: usize, v: u32) -> bool {
    has_undo(entry(table, s, KIND))
        && !is_correlation(correlation, v)
        && goes_by(table, s, v)
        && is_changed(table, s, v)
}
