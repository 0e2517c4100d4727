// The state that orders run on, its limits, what the calls on it answer, and the call that makes one: load.
#![tactic(auto)]

pub mod limits;
pub mod made;

ghost use Rattle.std.specs.Prelude.{◌≡◌};
ghost use Rattle.machine.specs.Calls as calls;
ghost use Rattle.machine.specs.State.{no_tally};

use order::{End, Order};
use plan::Refusal;
use plan::table::LENGTH;

// A message: places beyond its count hold 0; `reply` is the partner to reply to.
#[derive(Clone, Copy)]
pub struct Message {
    pub partner: u32,
    pub operation: u32,
    pub count: u32,
    pub values: [u32; 4],
    pub reply: u32,
}

// The messages of a state: the first `waiting` places wait.
#[derive(Clone, Copy)]
pub struct Mail {
    pub messages: [Message; 64],
    pub waiting: usize,
}

// The first `length` bytes of `plan` are the plan. The first `waiting` places of `messages` wait, in order of arrival.
#[derive(Clone, Copy)]
pub struct State {
    pub plan: [u8; 4096],
    pub length: usize,
    pub orders: [Order; 16],
    pub messages: [Message; 64],
    pub waiting: usize,
}

// What a step answers: where `refusal` is 0, the slot, the activity and the message place (0 where none) of the step taken, and the end; where that is
// handled or failed, the number of the fault that the root handled, or that went out of the root, and 0 where not.
// Stays: (a) `RefusedStep` of laws/specs/Promises.antt and `of_step` of laws/specs/Starred.antt speak of its refusal as a number beside the rest.
#[derive(Clone, Copy)]
pub struct Step {
    pub refusal: u32,
    pub slot: usize,
    pub activity: usize,
    pub place: usize,
    pub end: End,
    pub fault: u8,
}

// What loading bytes gives: the refusal and its place, or 0 and 0, and the state.
// Stays: (a) `load_number` and `load_bytes` of boundary/specs/Engine.antt speak of the refusal and of the state that is given with it.
#[derive(Clone, Copy)]
pub struct Loaded {
    pub refusal: u32,
    pub place: usize,
    pub state: State,
}

// What posting gives: the refusal or 0, and the state.
// Stays: (a) `RefusedPost` of laws/specs/Promises.antt speaks of the refusal and of the state that is given back with it.
#[derive(Clone, Copy)]
pub struct Posted {
    pub refusal: u32,
    pub state: State,
}

// What collecting gives: the refusal or 0, the message handed out (one with no values where it is refused), and the state.
// Stays: (a) `RefusedCollect` and `RefusedDrop` of laws/specs/Promises.antt speak of the refusal and of the state that is given back with it.
#[derive(Clone, Copy)]
pub struct Collected {
    pub refusal: u32,
    pub message: Message,
    pub state: State,
}

// How many orders started, and how many ended in each way.
#[derive(Clone, Copy)]
pub struct Tally {
    pub started: u32,
    pub well: u32,
    pub handled: u32,
    pub failed: u32,
    pub left: u32,
}

// A tally with nothing counted.
pub fn no_tally() -> Tally
    ensures { result ≡ no_tally }
{
    Tally {
        started: 0,
        well: 0,
        handled: 0,
        failed: 0,
        left: 0,
    }
}

// Loads the plan that some bytes spell.
pub fn load(s: &[u8]) -> Loaded
    ensures { result ≡ calls.load s.now }
{
    let mut table = [0u32; LENGTH];
    let mut flags = [0u8; 16];
    match plan::accept_over(s, &mut table, &mut flags) {
        Err(Refusal { number, place }) => Loaded {
            refusal: number,
            place,
            state: made::fresh_state(&s[..0]),
        },
        Ok(_) => Loaded {
            refusal: 0,
            place: 0,
            state: made::fresh_state(s),
        },
    }
}
