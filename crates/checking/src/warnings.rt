// The warnings in words: `warning ACTIVITY - what it is - what is wrong with it`.
use super::binding::is_unbound;
use super::numbering::never_runs;
use super::partners::has_none;
use super::reaching::{is_cut_off, is_passed_by};
use super::rivals::{is_contested, rival_of};
use super::sending::{is_never_taken, never_leaves};
use super::swallowing::swallows;
use super::undoing::{forgets, loses};
use drawing::{Out, Plan, number_at, put_activity, put_fault_name, put_variable};
use plan::table::Table;

// What an activity is warned of: the last three of one of its fault parts by number, and of a variable.
#[derive(Clone, Copy, PartialEq, Eq, Debug, Drop)]
enum Warning {
    NeverLeaves,
    NeverTaken,
    Forgets,
    Swallows,
    CutOff,
    PassedBy,
    Contested,
    NoPartner,
    NeverRuns(usize),
    Unbound(u32),
    Loses(u32),
}

// How many an activity may have: eight fault parts by number and sixteen variables.
const WARNINGS: u32 = 48;

// Warning k of an activity, in the order in which they are told.
fn warning_at(k: u32) -> Warning {
    match k {
        0 => Warning::NeverLeaves,
        1 => Warning::NeverTaken,
        2 => Warning::Forgets,
        3 => Warning::Swallows,
        4 => Warning::CutOff,
        5 => Warning::PassedBy,
        6 => Warning::Contested,
        7..=14 => Warning::NeverRuns(k as usize - 7),
        15 => Warning::NoPartner,
        16..=31 => Warning::Unbound(k - 16),
        _ => Warning::Loses(k - 32),
    }
}

// Whether activity n earns this warning.
fn is_earned(plan: Plan, n: usize, warning: Warning) -> bool {
    let table = plan.table;
    match warning {
        Warning::NeverLeaves => never_leaves(table, n),
        Warning::NeverTaken => is_never_taken(table, n),
        Warning::Forgets => forgets(table, n),
        Warning::Swallows => swallows(table, n),
        Warning::CutOff => is_cut_off(table, n),
        Warning::PassedBy => is_passed_by(table, n),
        Warning::Contested => is_contested(table, n),
        Warning::NoPartner => has_none(table, n),
        Warning::NeverRuns(part) => never_runs(table, n, part),
        Warning::Unbound(variable) => is_unbound(table, n, variable),
        Warning::Loses(variable) => loses(table, plan.correlation, n, variable),
    }
}

fn put_unbound(out: &mut Out, names: &[u8; 16896], variable: u32) {
    put_variable(out, names, variable);
    out.put(b" is unbound here: nothing before it binds it, so this faults");
}

fn put_lost(out: &mut Out, names: &[u8; 16896], variable: u32) {
    put_variable(out, names, variable);
    out.put(
        b" may be set again after the scope: the undo part goes by the value of then, not that of the closing",
    );
}

// Row n may be open together with another one.
fn put_rival(out: &mut Out, table: &Table, n: usize) {
    if let Some(rival) = rival_of(table, n) {
        out.put(b"it may be open together with activity");
        out.put_next(rival as u64);
        out.put(b", for the same partner, operation and variables: then this one raises a fault");
    }
}

// The fault part for this number never runs.
fn put_never_runs(out: &mut Out, names: &[u8; 16896], number: u32) {
    out.put(b"its fault part ");
    put_fault_name(out, names, b"", number);
    out.put(b" never runs: no raise in its body has that number");
}

fn put_words(out: &mut Out, plan: Plan, n: usize, warning: Warning) {
    match warning {
        Warning::NeverLeaves => out.put(
            b"it never leaves: the plan receives on this partner, and takes it itself",
        ),
        Warning::NeverTaken => out.put(
            b"it never leaves: the plan receives on this partner, and no receive of the plan takes it",
        ),
        Warning::Forgets => out.put(
            b"its undo part is empty: once it closes, the scopes within it are forgotten and not undone; with the undo part left out it hands them on",
        ),
        Warning::Swallows => out.put(
            b"its fault part is empty: a fault in its body is swallowed, and the order goes on behind it",
        ),
        Warning::CutOff => out.put(b"it never runs: what stands before it lets nothing follow"),
        Warning::PassedBy => out.put(b"it never runs: what it stands in goes by a constant"),
        Warning::Contested => put_rival(out, plan.table, n),
        Warning::NoPartner => out.put(
            b"no partner has the number that this variable is set to, so this faults: partners are 0 to 63",
        ),
        Warning::NeverRuns(part) => put_never_runs(out, plan.names, number_at(plan.table, n, part)),
        Warning::Unbound(variable) => put_unbound(out, plan.names, variable),
        Warning::Loses(variable) => put_lost(out, plan.names, variable),
    }
}

fn put_warning(out: &mut Out, plan: Plan, n: usize, warning: Warning) {
    out.put(b"warning");
    out.put_next(n as u64);
    out.put(b" - ");
    put_activity(out, plan, n);
    out.put(b" - ");
    put_words(out, plan, n, warning);
    out.put_byte(b'\n');
}

// A line for each warning, in the order of the activities; nothing where there is none.
pub fn put_warnings(out: &mut Out, plan: Plan, activities: usize) {
    for n in 0..activities {
        for k in 0..WARNINGS {
            let warning = warning_at(k);
            if is_earned(plan, n, warning) {
                put_warning(out, plan, n, warning);
            }
        }
    }
}

// How many warnings activity n has.
fn count_at(plan: Plan, n: usize) -> usize {
    (0..WARNINGS)
        .filter(|k| is_earned(plan, n, warning_at(*k)))
        .count()
}

// How many warnings there are.
fn count_of(plan: Plan, activities: usize) -> usize {
    let mut count: usize = 0;
    for n in 0..activities {
        count = count.saturating_add(count_at(plan, n));
    }
    count
}

// The answer to a check: how many warnings there are, each of them, and a blank line.
pub fn put_check(out: &mut Out, plan: Plan, activities: usize) {
    out.put_pair(b"check", 0, count_of(plan, activities) as u64);
    put_warnings(out, plan, activities);
    out.put_byte(b'\n');
}
