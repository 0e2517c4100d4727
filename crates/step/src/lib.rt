// A step is taken by its choice: what it answers, the state and the tally afterwards.
#![tactic(auto)]

mod stepping;

ghost use Rattle.std.specs.Prelude.{◌≡◌};
ghost use Rattle.machine.specs.Calls as calls;
ghost use Rattle.machine.specs.Calls.{refusing};
ghost use Rattle.step.specs.Stepping.{bare, nothing_by, StepsBy};

use machine::{Message, State, Step, Tally, limits, made};
use order::{End, Order};
use plan::Accepted;
use plan::table::{LENGTH, Table};

// What a step gives: its answer, the state and the tally.
// Stays: (a) `RefusedStep` of laws/specs/Promises.antt speaks of the state and the tally that are given back with a refusal.
#[derive(Clone, Copy)]
pub struct Stepped {
    pub answer: Step,
    pub state: State,
    pub tally: Tally,
}

// What a step changes: its answer, its order and the messages and the tally afterwards. Where it is refused, the messages and the tally are what they
// were, and the order is none of the state's.
// Stays: (a) the answer is the `Step` of `RefusedStep` of laws/specs/Promises.antt, and the messages and the tally are given back with a refusal too.
#[derive(Clone, Copy)]
pub struct Change {
    pub answer: Step,
    pub order: Order,
    pub messages: [Message; 64],
    pub waiting: usize,
    pub tally: Tally,
}

// The answer of a step that is refused.
// Stays: (d) the twin of `sight::counting::refused`, of a crate that this one does not name: a line in crates.txt for six fields is no plainer.
fn refused(number: u32) -> Step
    ensures { result ≡ refusing number }
{
    Step {
        refusal: number,
        slot: 0,
        activity: 0,
        place: 0,
        end: End::None,
        fault: 0,
    }
}

// What a step that is refused changes: nothing.
fn unchanged(answer: Step, messages: [Message; 64], waiting: usize, tally: Tally) -> Change
    ensures { result ≡ nothing_by answer messages waiting tally }
{
    Change {
        answer,
        order: made::no_order(),
        messages,
        waiting,
        tally,
    }
}

// What the step with a choice changes, in a state that has the plan with this table and these flags. A state goes by value, so that each call with it
// copies it: what changes is handed back, and the caller puts it into its own.
#[tactic(auto, using(crate::proofs::Sets::step_by))]
pub fn step_by(
    table: &Table,
    flags: &[u8; 16],
    activities: usize,
    state: State,
    choice: usize,
    tally: Tally,
) -> Change
    ensures { StepsBy table.now flags.now activities state choice tally result }
{
    let x = offer::offer_by(table, flags, activities, state, choice);
    let messages = state.messages;
    let waiting = state.waiting;
    if x.refusal != 0 {
        return unchanged(x, messages, waiting, tally);
    }
    if 16 <= x.slot {
        return unchanged(refused(17), messages, waiting, tally);
    }
    // an index into the state's own orders would copy the state
    let orders = state.orders;
    stepping::moved(
        table,
        activities,
        orders[x.slot],
        messages,
        waiting,
        x.slot,
        x.activity,
        x.place,
        tally,
    )
}

// Takes the step with a choice. What it changes is put into a state whose orders are changed beside it, as they are looked into in `step_by`.
pub fn take_step(state: State, choice: usize, tally: Tally) -> Stepped
    ensures { result ≡ bare (calls.step choice state tally) }
{
    let mut table = [0u32; LENGTH];
    let mut flags = [0u8; 16];
    let Ok(Accepted { activities, .. }) = limits::planned(state, &mut table, &mut flags) else {
        return Stepped {
            answer: refused(17),
            state,
            tally,
        };
    };
    let c = step_by(&table, &flags, activities, state, choice, tally);
    let answer = c.answer;
    if answer.refusal != 0 {
        return Stepped {
            answer,
            state,
            tally: c.tally,
        };
    }
    let mut orders = state.orders;
    orders[answer.slot] = c.order;
    let messages = c.messages;
    Stepped {
        answer,
        state: State {
            orders,
            messages,
            waiting: c.waiting,
            ..state
        },
        tally: c.tally,
    }
}

// Takes the step with a choice; the host's tally is lent, and is brought up to date on return.
pub fn step(state: State, choice: usize, tally: &mut Tally) -> Stepped
    ensures { (result ≡ bare (calls.step choice state tally.old)) × (tally.new ≡ result.tally) }
{
    let r = take_step(state, choice, *tally);
    *tally = r.tally;
    r
}
