// Whether a send would send: its variables, and its partner.
ghost use Rattle.std.specs.Prelude.{◌<◌};
ghost use Rattle.order.specs.Answering.{BoundAt, ValueAt, TupleBound, AllBound, PartnerTo, Reaches, MaySend};

use super::rows::{count_of, variable_of};
use plan::kind;
use plan::table::{PARTNER, Table, VARIABLE, WIDTH};

// Whether variable v is bound.
fn bound_at(bound: &[u8; 16], v: u32) -> bool
    ensures { BoundAt bound.now v result }
{
    let i = v as usize;
    i < 16 && bound[i] == 1
}

// The value of variable v.
fn value_at(values: &[u32; 16], v: u32) -> u32
    ensures { ValueAt values.now v result }
{
    let i = v as usize;
    if i < 16 { values[i] } else { 0 }
}

// Whether all variables of the tuple that row k names are bound.
fn tuple_bound(table: &Table, k: usize, bound: &[u8; 16]) -> bool
    requires { k < 256 }
    ensures { TupleBound table.now k bound.now result }
{
    for i in 0..count_of(table, k) {
        if !bound_at(bound, variable_of(table, k, i)) {
            return false;
        }
    }
    true
}

// Whether all variables of the send in row k are bound, the one that holds its partner too; false where there is no row k.
pub fn all_bound(table: &Table, k: usize, bound: &[u8; 16]) -> bool
    ensures { AllBound table.now k bound.now result }
{
    k < 256
        && (table[k * WIDTH] != kind::HELD_SEND || bound_at(bound, table[k * WIDTH + VARIABLE]))
        && tuple_bound(table, k, bound)
}

// The partner of the send in row k, or what its variable holds in the place of one.
pub fn partner_to(table: &Table, k: usize, values: &[u32; 16]) -> u32
    requires { k < 256 }
    ensures { PartnerTo table.now k values.now result }
{
    if table[k * WIDTH] == kind::HELD_SEND {
        value_at(values, table[k * WIDTH + VARIABLE])
    } else {
        table[k * WIDTH + PARTNER]
    }
}

// Whether what the variable of the send in row k holds is a partner; where it has its partner itself it is one.
pub fn reaches(table: &Table, k: usize, values: &[u32; 16]) -> bool
    requires { k < 256 }
    ensures { Reaches table.now k values.now result }
{
    table[k * WIDTH] != kind::HELD_SEND || partner_to(table, k, values) <= 63
}

// Whether the send in row k would send, and not raise.
pub fn may_send(table: &Table, k: usize, bound: &[u8; 16], values: &[u32; 16]) -> bool
    requires { k < 256 }
    ensures { MaySend table.now k bound.now values.now result }
{
    all_bound(table, k, bound) && reaches(table, k, values)
}
