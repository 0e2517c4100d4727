// What the table of an accepted plan says of its activities and arms. (The rows and the nodes are those of the crate plan, specs/Table.antt.)
use plan::kind;
use plan::table::{COUNT, END, FIRST_NUMBERS, KIND, OTHER_NUMBERS, Table, WIDTH};

// Number `field` of row n.
pub fn entry(table: &Table, n: usize, field: usize) -> u32 {
    if n < 256 && field < WIDTH {
        table[n * WIDTH + field]
    } else {
        0
    }
}

// The number after the last activity within activity n.
pub fn end_of(table: &Table, n: usize) -> usize {
    entry(table, n, END) as usize
}

// The number after m, of an activity or a node.
// Stays: (d) the library's `saturating_add` goes on where no number of a table follows.
pub fn after(m: usize) -> usize {
    if m < 4096 { m + 1 } else { m }
}

// Whether activity n stands within activity m, which is before it.
fn is_around(table: &Table, m: usize, n: usize) -> bool {
    n < end_of(table, m)
}

// How many activities and arms stand around activity n.
pub fn depth_of(table: &Table, n: usize) -> usize {
    (0..n).filter(|m| is_around(table, *m, n)).count()
}

// The nearest activity or arm around activity n, where there is one.
pub fn parent_of(table: &Table, n: usize) -> Option<usize> {
    (0..n).rfind(|m| is_around(table, *m, n))
}

// The nearest scope around activity n, where there is one; else the root is nearest.
pub fn scope_of(table: &Table, n: usize) -> Option<usize> {
    (0..n).rfind(|m| is_scope(entry(table, *m, KIND)) && is_around(table, *m, n))
}

// Of those directly within activity `parent`, how many stand before activity n.
pub(crate) fn order_of(table: &Table, parent: usize, n: usize) -> usize {
    let mut order = 0;
    let mut m = parent.saturating_add(1);
    // Stays: (d) the place goes on from the end of one activity to the next, over all that is within it.
    while m < n {
        m = (m + 1).max(end_of(table, m));
        order += 1;
    }
    order
}

// Whether an activity of this kind is a scope: with an undo part, or without.
pub fn is_scope(kind: u32) -> bool {
    kind == kind::OPEN_SCOPE || has_undo(kind)
}

// Whether an activity of this kind is a scope with an undo part.
pub fn has_undo(kind: u32) -> bool {
    matches!(kind, kind::SCOPE | kind::NUMBERED_SCOPE)
}

// How many fault parts by number scope s has: at most eight.
pub fn numbers_of(table: &Table, s: usize) -> usize {
    if entry(table, s, KIND) != kind::NUMBERED_SCOPE {
        return 0;
    }
    match entry(table, s, COUNT) {
        count @ 0..=8 => count as usize,
        _ => 0,
    }
}

// The number of fault part i of scope s, counted from 0.
pub fn number_at(table: &Table, s: usize, i: usize) -> u32 {
    match i {
        0 | 1 => entry(table, s, FIRST_NUMBERS + i),
        2..=7 => entry(table, s, OTHER_NUMBERS + i - 2),
        _ => 0,
    }
}

// The first fault part of scope s, which stands after its body; the general one, after those by number; and the undo part, after that.
pub fn fault_of(table: &Table, s: usize) -> usize {
    end_of(table, after(s))
}

pub fn general_of(table: &Table, s: usize) -> usize {
    let mut at = fault_of(table, s);
    for _ in 0..numbers_of(table, s) {
        at = end_of(table, at);
    }
    at
}

pub fn undo_of(table: &Table, s: usize) -> usize {
    end_of(table, general_of(table, s))
}

// How many scopes stand before activity n.
pub(crate) fn scopes_before(table: &Table, n: usize) -> usize {
    (0..n).filter(|m| is_scope(entry(table, *m, KIND))).count()
}
