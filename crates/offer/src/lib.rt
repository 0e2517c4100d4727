// What is offered in a state: the step that a choice would take, and how many steps there are. No list is built: a choice is counted down.
#![tactic(auto)]

pub mod letters;
mod previews;
mod slots;

ghost use Rattle.std.specs.Prelude.{◌≡◌};
ghost use Rattle.machine.specs.Calls.{preview};
ghost use Rattle.offer.specs.Having.{Has, OffersBy, offered_in};

use machine::{State, Step, limits};
use plan::Accepted;
use plan::table::{LENGTH, Table};
use sight::counting;

// How many steps are on offer, and whether something is held.
#[derive(Clone, Copy)]
pub struct Amount {
    pub many: usize,
    pub held: bool,
}

// How many steps are offered, and whether something is held; or a refusal.
// Stays: (a) `offers_number` of boundary/specs/Engine.antt speaks of all three as numbers for C.
#[derive(Clone, Copy)]
pub struct Offered {
    pub refusal: u32,
    pub many: usize,
    pub held: bool,
}

// What a choice comes to in a state that has the plan with this table and these flags.
#[tactic(auto, using(crate::proofs::Sets::offer_by))]
pub fn offer_by(
    table: &Table,
    flags: &[u8; 16],
    activities: usize,
    state: State,
    choice: usize,
) -> Step
    ensures { OffersBy table.now flags.now activities state choice result }
{
    if 256 < activities || 64 < state.waiting {
        return counting::refused(17);
    }
    previews::preview_by(table, flags, state, activities, choice)
}

// The step that a choice would take, not taken.
#[tactic(auto, using(crate::proofs::Sets::offer))]
pub fn offer(state: State, choice: usize) -> Step
    ensures { result ≡ preview choice state }
{
    let mut table = [0u32; LENGTH];
    let mut flags = [0u8; 16];
    match limits::planned(state, &mut table, &mut flags) {
        Err(_) => counting::refused(17),
        Ok(Accepted { activities, .. }) => offer_by(&table, &flags, activities, state, choice),
    }
}

// How many steps are offered in a state that has the plan with this table and these flags.
#[tactic(auto, using(crate::proofs::Sets::count_by))]
fn count_by(table: &Table, flags: &[u8; 16], activities: usize, state: State) -> Offered
    requires { Has table.now flags.now activities state }
    ensures { result ≡ offered_in state }
{
    let a = previews::offered_by(table, flags, state, activities);
    Offered {
        refusal: 0,
        many: a.many,
        held: a.held,
    }
}

// How many steps are offered, and whether something is held.
#[tactic(auto, using(crate::proofs::Sets::offers))]
pub fn offers(state: State) -> Offered
    ensures { result ≡ offered_in state }
{
    let mut table = [0u32; LENGTH];
    let mut flags = [0u8; 16];
    match limits::planned(state, &mut table, &mut flags) {
        Err(_) => Offered {
            refusal: 17,
            many: 0,
            held: false,
        },
        Ok(Accepted { activities, .. }) => count_by(&table, &flags, activities, state),
    }
}
