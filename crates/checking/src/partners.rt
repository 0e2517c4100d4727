// Which partner a send goes to, as far as the plan shows it. Of one to the partner that a variable holds that is seldom seen: where everything that binds the
// variable sets it to one and the same number.
use super::uses::{binds, form_of};
use drawing::{entry, value_of};
use forms::Form;
use plan::kind;
use plan::table::{EXPRESSION, KIND, PARTNER, Table, VARIABLE};

// The constant that activity m, a set, sets its variable to, where it is one.
fn constant_of(table: &Table, m: usize) -> Option<u32> {
    let node = entry(table, m, EXPRESSION) as usize;
    if entry(table, m, KIND) == kind::SET && form_of(table, node) == Form::Constant {
        Some(value_of(table, node))
    } else {
        None
    }
}

// Whether something binds variable v to another number than this, or to what the plan does not show.
fn is_ever_other(table: &Table, v: u32, number: u32) -> bool {
    (0..256).any(|m| binds(table, m, v) && constant_of(table, m) != Some(number))
}

// The number that variable v holds wherever it is bound, where the plan shows it.
fn held_in(table: &Table, v: u32) -> Option<u32> {
    let first = (0..256).find(|m| binds(table, *m, v))?;
    let number = constant_of(table, first)?;
    if is_ever_other(table, v, number) {
        None
    } else {
        Some(number)
    }
}

// The partner of activity n, where that is a send and the plan shows it.
pub(crate) fn partner_of(table: &Table, n: usize) -> Option<u32> {
    match entry(table, n, KIND) {
        kind::SEND => Some(entry(table, n, PARTNER)),
        kind::HELD_SEND => held_in(table, entry(table, n, VARIABLE)),
        _ => None,
    }
}

// Whether activity n is a send to the partner that a variable holds, and that is always a number that no partner has.
pub(crate) fn has_none(table: &Table, n: usize) -> bool {
    partner_of(table, n).is_some_and(|partner| 64 <= partner)
}

// Whether what activity m binds variable v to is a partner, as far as the plan shows it: whom to reply to always is.
fn binds_partner(table: &Table, m: usize, v: u32) -> bool {
    if entry(table, m, KIND) == kind::ASKING_RECEIVE {
        entry(table, m, VARIABLE) == v
    } else {
        constant_of(table, m).is_some_and(|number| number < 64)
    }
}

fn may_hold_none(table: &Table, v: u32) -> bool {
    (0..256).any(|m| binds(table, m, v) && !binds_partner(table, m, v))
}

// Whether activity n is a send to the partner that a variable holds, and that may be a number that no partner has.
pub(crate) fn may_have_none(table: &Table, n: usize) -> bool {
    entry(table, n, KIND) == kind::HELD_SEND && may_hold_none(table, entry(table, n, VARIABLE))
}
