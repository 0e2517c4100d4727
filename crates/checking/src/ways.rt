// Which of two activities can run before the other, by where they stand.
use drawing::{after, end_of, entry, fault_of, has_undo, undo_of};
use plan::kind;
use plan::table::{KIND, Table};

// A part of a scope.
#[derive(Clone, Copy, PartialEq, Eq, Debug, Drop)]
pub(crate) enum Part {
    Body,
    Fault,
    Undo,
}

// Whether activity n is a, or stands in it.
pub(crate) fn is_within(table: &Table, a: usize, n: usize) -> bool {
    a <= n && n < end_of(table, a)
}

fn is_around(table: &Table, a: usize, m: usize, n: usize) -> bool {
    is_within(table, a, m) && is_within(table, a, n)
}

// The innermost activity or arm that both stand in, or that is one of them; none where it is the root.
pub(crate) fn around(table: &Table, m: usize, n: usize) -> Option<usize> {
    (0..256).rfind(|a| is_around(table, *a, m, n))
}

// Whether both stand in a repeat, from activity `first` on: then m may run in one turn and n in the next.
pub(crate) fn repeats(table: &Table, first: usize, m: usize, n: usize) -> bool {
    (first..n).any(|a| entry(table, a, KIND) == kind::REPEAT && is_around(table, a, m, n))
}

// The nearest scope around scope n that has an undo part, where one has. Those between hand on what closed in them when they close.
pub(crate) fn keeper_of(table: &Table, n: usize) -> Option<usize> {
    (0..n).rfind(|s| has_undo(entry(table, *s, KIND)) && n < end_of(table, *s))
}

// In which part of scope s activity n stands.
pub(crate) fn part_in(table: &Table, s: usize, n: usize) -> Part {
    if n < fault_of(table, s) {
        Part::Body
    } else if n < undo_of(table, s) {
        Part::Fault
    } else {
        Part::Undo
    }
}

fn is_undo_around(table: &Table, s: usize, n: usize) -> bool {
    has_undo(entry(table, s, KIND)) && is_within(table, s, n) && part_in(table, s, n) == Part::Undo
}

// Whether n stands in an undo part within activity a: it runs after what follows the scope.
fn is_in_undo(table: &Table, a: usize, n: usize) -> bool {
    (a..n).any(|s| is_undo_around(table, s, n))
}

// Whether m may run before n in the same turn, where a is the innermost around both: in a sequence what stands first, and whatever stands there where n is
// undone later.
fn comes_before(table: &Table, a: usize, m: usize, n: usize) -> bool {
    match entry(table, a, KIND) {
        kind::SEQUENCE => m < n || is_in_undo(table, a, n),
        kind::FLOW => true,
        kind::SCOPE | kind::OPEN_SCOPE | kind::NUMBERED_SCOPE => part_in(table, a, m) == Part::Body,
        _ => false,
    }
}

// Whether m, which binds something, may run before n in the same turn. (Of the root the body runs before the fault part.)
fn may_come_before(table: &Table, m: usize, n: usize) -> bool {
    match around(table, m, n) {
        Some(a) => a == m || a != n && comes_before(table, a, m, n),
        None => m < n,
    }
}

// Whether m, which binds something, may run before n on some way there.
pub(crate) fn may_precede(table: &Table, m: usize, n: usize) -> bool {
    m != n && (may_come_before(table, m, n) || repeats(table, 0, m, n))
}

fn is_fork(table: &Table, x: usize, m: usize) -> bool {
    is_within(table, x, m) && !matches!(entry(table, x, KIND), kind::SEQUENCE | kind::FLOW)
}

// Whether nothing but sequences and flows stands between activity a and m within it, so that m runs wherever a is done.
fn is_straight(table: &Table, a: usize, m: usize) -> bool {
    !(after(a)..m).any(|x| is_fork(table, x, m))
}

// Whether m, which binds something, runs before n on every way there.
pub(crate) fn must_precede(table: &Table, m: usize, n: usize) -> bool {
    if n <= m {
        return false;
    }
    match around(table, m, n) {
        Some(a) => a == m || entry(table, a, KIND) == kind::SEQUENCE && is_straight(table, a, m),
        None => false,
    }
}
