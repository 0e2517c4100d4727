// A run: steps by a list of choices, under a budget that is lent; and the same told, step by step, in a lent buffer.
#![tactic(auto)]

ghost use Rattle.std.specs.Prelude.{◌+◌, map, ◌≡◌};
ghost use Rattle.answers.specs.Numbering.{step_number, filled};
ghost use Rattle.machine.specs.Calls as calls;
ghost use Rattle.machine.specs.Calls.{run_by};
ghost use Rattle.offer.specs.Having.{Has};
ghost use Rattle.run.specs.Running.{ran_of};
ghost use Rattle.run.specs.Telling.{told_by, told_in};

use machine::{State, Tally, limits};
use plan::Accepted;
use plan::table::{LENGTH, Table};

// What a run gives: the steps taken, the refusal or 0, the state and the tally.
// Stays: (a) the contract of `moonhalyard_tell` speaks of the refusal and of the steps taken before it, and `run_bytes` of boundary/specs/Engine.antt of the state.
#[derive(Clone, Copy)]
pub struct Ran {
    pub taken: usize,
    pub refusal: u32,
    pub state: State,
    pub tally: Tally,
}

// Takes the steps with these choices, as far as the budget goes, and tells each.
fn run_by(
    table: &Table,
    flags: &[u8; 16],
    activities: usize,
    mut state: State,
    choices: &[usize],
    budget: &mut usize,
    tally: Tally,
    told: &mut [u64],
) -> Ran
    requires { Has table.now flags.now activities state }
    ensures is { result ≡ ran_of (run_by calls.step choices.now budget.old state tally) }
    ensures left { budget.new + result.taken ≡ budget.old }
    ensures told { told.new ≡ filled 0 (map step_number (told_by calls.step choices.now budget.old state tally)) told.old }
{
    let mut y = tally;
    for (i, choice) in choices.iter().enumerate() {
        if *budget == 0 {
            return Ran {
                taken: i,
                refusal: 0,
                state,
                tally: y,
            };
        }
        let c = step::step_by(table, flags, activities, state, *choice, y);
        let a = c.answer;
        if a.refusal != 0 {
            return Ran {
                taken: i,
                refusal: a.refusal,
                state,
                tally: y,
            };
        }
        state.orders[a.slot] = c.order;
        let messages = c.messages;
        state.messages = messages;
        state.waiting = c.waiting;
        y = c.tally;
        *budget -= 1;
        answers::put(told, i, answers::step_number(a));
    }
    Ran {
        taken: choices.len(),
        refusal: 0,
        state,
        tally: y,
    }
}

// Takes the steps with these choices, one after the other, as far as the budget goes, which is left with what remains of it. The answer of each step taken
// is put into `told`, as a number, as far as there is room.
pub fn run_told(
    state: State,
    choices: &[usize],
    budget: &mut usize,
    tally: Tally,
    told: &mut [u64],
) -> Ran
    ensures is { result ≡ ran_of (calls.run choices.now budget.old state tally) }
    ensures left { budget.new + result.taken ≡ budget.old }
    ensures told { told.new ≡ filled 0 (map step_number (told_in choices.now budget.old state tally)) told.old }
{
    let mut table = [0u32; LENGTH];
    let mut flags = [0u8; 16];
    let Ok(Accepted { activities, .. }) = limits::planned(state, &mut table, &mut flags) else {
        return Ran {
            taken: 0,
            refusal: 17,
            state,
            tally,
        };
    };
    run_by(
        &table, &flags, activities, state, choices, budget, tally, told,
    )
}

// The same, and nothing is told.
pub fn run(state: State, choices: &[usize], budget: &mut usize, tally: Tally) -> Ran
    ensures is { result ≡ ran_of (calls.run choices.now budget.old state tally) }
    ensures left { budget.new + result.taken ≡ budget.old }
{
    let mut none = [0u64; 1];
    run_told(state, choices, budget, tally, &mut none)
}
