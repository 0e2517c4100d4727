// Fault parts by number that never run: no raise in the body of their scope has that number.
use drawing::{after, entry, fault_of, number_at, numbers_of};
use plan::kind;
use plan::table::{KIND, NUMBER, Table};

// Whether activity n is a raise with this number; a plain one has 0.
fn raises(table: &Table, n: usize, number: u32) -> bool {
    match entry(table, n, KIND) {
        kind::RAISE => number == 0,
        kind::NUMBERED_RAISE => number == entry(table, n, NUMBER),
        _ => false,
    }
}

// Whether a raise in the body of scope s has this number: one in a part of a scope there may go on out of it.
fn is_raised(table: &Table, s: usize, number: u32) -> bool {
    (after(s)..fault_of(table, s)).any(|n| raises(table, n, number))
}

// Whether only a raise has this number: what an expression, a send and two receives for one thing fault with has others.
fn is_of_raises(number: u32) -> bool {
    number == 0 || 15 < number
}

// Whether fault part i of scope s never runs.
pub(crate) fn never_runs(table: &Table, s: usize, i: usize) -> bool {
    let number = number_at(table, s, i);
    i < numbers_of(table, s) && is_of_raises(number) && !is_raised(table, s, number)
}
