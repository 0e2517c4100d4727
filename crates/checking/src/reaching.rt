// Activities that can never run.
use super::uses::form_of;
use drawing::{after, end_of, entry, parent_of, value_of};
use forms::Form;
use plan::kind;
use plan::table::{EXPRESSION, KIND, Table};

// Whether the expression of activity n is a constant that is 0, or one that is not.
fn goes_by(table: &Table, n: usize, zero: bool) -> bool {
    let m = entry(table, n, EXPRESSION) as usize;
    form_of(table, m) == Form::Constant && (value_of(table, m) == 0) == zero
}

// Whether nothing runs behind activity n in its sequence: a raise, a leave, or a repeat that never ends.
fn is_last(table: &Table, n: usize) -> bool {
    match entry(table, n, KIND) {
        kind::RAISE | kind::NUMBERED_RAISE | kind::LEAVE => true,
        kind::REPEAT => goes_by(table, n, false),
        _ => false,
    }
}

// Of those that stand directly in activity `parent`, the one before n, where there is one.
fn before(table: &Table, parent: usize, n: usize) -> Option<usize> {
    let mut found = None;
    let mut m = after(parent);
    // Stays: (d) the place goes on from the end of one activity to the next, over all that is within it.
    while m < n {
        let end = end_of(table, m);
        if end <= m {
            return None;
        }
        found = Some(m);
        m = end;
    }
    found
}

// Whether activity n stands in a sequence behind one after which nothing runs.
pub(crate) fn is_cut_off(table: &Table, n: usize) -> bool {
    match parent_of(table, n) {
        Some(parent) if entry(table, parent, KIND) == kind::SEQUENCE => {
            before(table, parent, n).is_some_and(|m| is_last(table, m))
        }
        _ => false,
    }
}

// Of a choose the first runs where the expression is not 0, the second where it is; what stands in a repeat, where it is not.
fn is_never_chosen(table: &Table, parent: usize, n: usize) -> bool {
    match entry(table, parent, KIND) {
        kind::CHOOSE => goes_by(table, parent, after(parent) == n),
        kind::REPEAT => goes_by(table, parent, true),
        _ => false,
    }
}

// Whether activity n stands in a choose or a repeat by a constant that never lets it run.
pub(crate) fn is_passed_by(table: &Table, n: usize) -> bool {
    parent_of(table, n).is_some_and(|parent| is_never_chosen(table, parent, n))
}
