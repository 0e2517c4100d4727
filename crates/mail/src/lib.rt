// The messages of a state, and the calls that take no step: post, collect and drop.
#![tactic(auto)]

pub mod letters;

ghost use Rattle.std.specs.Prelude.{◌≡◌};
ghost use Rattle.machine.specs.Calls as calls;

use machine::limits::planned;
use machine::made::no_message;
use machine::{Collected, Message, Posted, State};
use plan::table::LENGTH;

// Posts a message.
#[tactic(auto, using(crate::proofs::Sets::post))]
pub fn post(state: State, m: Message) -> Posted
    ensures { result ≡ calls.post m state }
{
    let mut table = [0u32; LENGTH];
    let mut flags = [0u8; 16];
    match planned(state, &mut table, &mut flags) {
        Err(_) => Posted { refusal: 17, state },
        Ok(_) => letters::post_by(state, m),
    }
}

// Collects the oldest message for a partner that the plan never receives on.
#[tactic(auto, using(crate::proofs::Sets::collect))]
pub fn collect(state: State) -> Collected
    ensures { result ≡ calls.collect state }
{
    let mut table = [0u32; LENGTH];
    let mut flags = [0u8; 16];
    match planned(state, &mut table, &mut flags) {
        Err(_) => Collected {
            refusal: 17,
            message: no_message(),
            state,
        },
        Ok(_) => letters::collect_by(state, &table),
    }
}

// Hands out any message that waits, by its place.
#[tactic(auto, using(crate::proofs::Sets::drop_at))]
pub fn drop_at(state: State, place: usize) -> Collected
    ensures { result ≡ calls.drop_at place state }
{
    let mut table = [0u32; LENGTH];
    let mut flags = [0u8; 16];
    match planned(state, &mut table, &mut flags) {
        Err(_) => Collected {
            refusal: 17,
            message: no_message(),
            state,
        },
        Ok(_) => letters::handed(state, place),
    }
}
