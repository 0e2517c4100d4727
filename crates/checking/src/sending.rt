// Messages that never leave, and messages that nothing takes.
use super::partners::partner_of;
use drawing::entry;
use plan::kind;
use plan::table::{COUNT, KIND, OPERATION, PARTNER, PARTNERS, Table};

// Whether the plan receives on a partner.
fn is_heard(table: &Table, partner: u32) -> bool {
    partner < 64 && table[PARTNERS + partner as usize] == 1
}

// Whether an activity of this kind takes messages.
pub(crate) fn is_receive(kind: u32) -> bool {
    matches!(kind, kind::RECEIVE | kind::ASKING_RECEIVE | kind::ARM)
}

// Whether row n is a receive or an arm that takes such a message, its values apart.
fn takes(table: &Table, n: usize, partner: u32, operation: u32, count: u32) -> bool {
    is_receive(entry(table, n, KIND))
        && entry(table, n, PARTNER) == partner
        && entry(table, n, OPERATION) == operation
        && entry(table, n, COUNT) == count
}

// Whether a receive or an arm of the plan takes messages of this partner and operation with so many values. Where none does, such a message waits for
// good.
pub fn is_ever_taken(table: &Table, partner: u32, operation: u32, count: u32) -> bool {
    (0..256).any(|n| takes(table, n, partner, operation, count))
}

// Whether a receive or an arm of the plan takes what activity n sends to this partner.
fn is_sent_taken(table: &Table, n: usize, partner: u32) -> bool {
    is_ever_taken(
        table,
        partner,
        entry(table, n, OPERATION),
        entry(table, n, COUNT),
    )
}

// Whether activity n sends to a partner that the plan receives on: what it sends never leaves, and the plan itself takes it.
pub(crate) fn never_leaves(table: &Table, n: usize) -> bool {
    match partner_of(table, n) {
        Some(partner) => is_heard(table, partner) && is_sent_taken(table, n, partner),
        None => false,
    }
}

// The same, where no receive of the plan takes it.
pub(crate) fn is_never_taken(table: &Table, n: usize) -> bool {
    match partner_of(table, n) {
        Some(partner) => is_heard(table, partner) && !is_sent_taken(table, n, partner),
        None => false,
    }
}
