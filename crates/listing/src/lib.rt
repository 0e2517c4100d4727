// A window of the offer: the steps from a choice on, as numbers, in a lent buffer. Each order's rows and each message that may start an order are gone
// through once, and asked one by one for the steps that are written.
#![tactic(auto)]

mod letters;
mod rows;
mod whole;

ghost use Rattle.std.specs.Prelude.{length, ◌≡◌};
ghost use Rattle.offer.specs.Having.{Has};
ghost use Rattle.listing.specs.Listing.{listed_in, listed_out};

use machine::{State, limits};
use plan::Accepted;
use plan::table::{LENGTH, Table};

// What is carried along: how many steps are still to be passed by, and how many were written.
#[derive(Clone, Copy)]
pub struct Window {
    pub skip: u32,
    pub at: usize,
}

// How many steps were written; or a refusal.
// Stays: (a) `list_number` of boundary/specs/Engine.antt speaks of both as numbers for C.
#[derive(Clone, Copy)]
pub struct Listed {
    pub refusal: u32,
    pub many: usize,
}

// The window in a state that has the plan with this table and these flags.
fn list_by(
    table: &Table,
    flags: &[u8; 16],
    activities: usize,
    state: State,
    first: u32,
    out: &mut [u64],
) -> Listed
    requires { Has table.now flags.now activities state }
    ensures is { result ≡ listed_in first state (length out.old) }
    ensures out { out.new ≡ listed_out first state out.old }
{
    let w = whole::list_of(table, flags, state, activities, first, out);
    Listed {
        refusal: 0,
        many: w.at,
    }
}

// Writes the steps from the choice `first` on into the front of `out`, as many as there is room for.
pub fn list(state: State, first: u32, out: &mut [u64]) -> Listed
    ensures is { result ≡ listed_in first state (length out.old) }
    ensures out { out.new ≡ listed_out first state out.old }
{
    let mut table = [0u32; LENGTH];
    let mut flags = [0u8; 16];
    let Ok(Accepted { activities, .. }) = limits::planned(state, &mut table, &mut flags) else {
        return Listed {
            refusal: 17,
            many: 0,
        };
    };
    list_by(&table, &flags, activities, state, first, out)
}
