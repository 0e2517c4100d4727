// The messages that wait: one arrives, one leaves.
ghost use Rattle.std.specs.Prelude.{ℕ, ◌+◌, ◌<◌, ◌≤◌, eqb, length, take, drop, get_or, true, List, ◌++◌, ◌∷◌, [], ◌≡◌};
ghost use Rattle.plan.specs.Tree.{Plan};
ghost use Rattle.machine.specs.Heard.{Heard};
ghost use Rattle.machine.specs.Limits.{message_in_limits, in_limits};
ghost use Rattle.order.specs.Lists.{every, stored};
ghost use Rattle.machine.specs.State.{no_message, adding, removing};
ghost use Rattle.machine.specs.Planned.{Adds, Removes};
ghost use Rattle.machine.specs.Calls.{trimmed, post_by, partners_of, foreign, handing, collect_by};

use machine::{Collected, Mail, Message, Posted, State, limits, made};
use plan::table::{PARTNERS, Table};

// The first `count` values, with zeros behind them.
#[tactic(auto, using(crate::proofs::Sets::first_values))]
fn first_values(values: [u32; 4], count: u32) -> [u32; 4]
    requires { count ≤ 4 }
    ensures { result ≡ stored 4 (take count values) }
{
    let n = count as usize;
    let mut out = [0; 4];
    out[..n].copy_from_slice(&values[..n]);
    out
}

// A message whose places beyond its count hold 0.
#[tactic(auto, using(crate::proofs::Sets::trim))]
fn trim(m: Message) -> Message
    requires { m.count ≤ 4 }
    ensures { result ≡ trimmed m }
{
    Message {
        values: first_values(m.values, m.count),
        ..m
    }
}

// A message arrives after the others.
pub(crate) fn arrived(state: State, m: Message) -> State
    requires { state.waiting < 64 }
    ensures { result ≡ adding m state }
{
    let mut messages = state.messages;
    messages[state.waiting] = m;
    State {
        messages,
        waiting: state.waiting + 1,
        ..state
    }
}

// The messages after one arrived, where one more has a place; else nothing changes.
#[tactic(auto, using(crate::proofs::Sets::with_message))]
pub fn with_message(mut messages: [Message; 64], waiting: usize, m: Message) -> Mail
    ensures { Adds m messages waiting result }
{
    if 64 <= waiting {
        return Mail { messages, waiting };
    }
    messages[waiting] = m;
    Mail {
        messages,
        waiting: waiting + 1,
    }
}

// A message is posted to a state that has a plan.
#[tactic(auto, using(crate::proofs::Sets::post_by))]
pub(crate) fn post_by(state: State, m: Message) -> Posted
    ensures { (p : Plan) → result ≡ post_by p m state }
{
    if !limits::exchange_ruled(m.partner, m.operation, m.count, m.reply) {
        return Posted { refusal: 13, state };
    }
    if 64 <= state.waiting {
        return Posted { refusal: 14, state };
    }
    Posted {
        refusal: 0,
        state: arrived(state, trim(m)),
    }
}

// The messages without the one at `place`: those behind it move up.
#[tactic(auto, using(crate::proofs::Sets::moved_up))]
fn moved_up(mut messages: [Message; 64], place: usize) -> [Message; 64]
    requires { place < 64 }
    ensures { result ≡ take place messages ++ (drop (place + 1) messages ++ (no_message ∷ [])) }
{
    messages.copy_within(place + 1.., place);
    messages[63] = made::no_message();
    messages
}

// The message at `place` leaves.
#[tactic(auto, using(crate::proofs::Sets::left))]
pub(crate) fn left(state: State, place: usize) -> State
    requires { (place < 64) × (place < state.waiting) }
    ensures { result ≡ removing place state }
{
    State {
        messages: moved_up(state.messages, place),
        waiting: state.waiting - 1,
        ..state
    }
}

// The messages after the one at `place` left, where one waits there; else nothing changes.
#[tactic(auto, using(crate::proofs::Sets::without_message))]
pub fn without_message(messages: [Message; 64], waiting: usize, place: usize) -> Mail
    ensures { Removes place messages waiting result }
{
    if 64 < waiting || waiting <= place {
        return Mail { messages, waiting };
    }
    Mail {
        messages: moved_up(messages, place),
        waiting: waiting - 1,
    }
}

// Whether the plan with this table receives on a partner.
fn heard(table: &Table, partner: u32) -> bool
    requires { partner < 64 }
    ensures { result ≡ eqb (get_or table.now (3328 + partner) 0) 1 }
{
    table[PARTNERS + partner as usize] == 1
}

// The place of the oldest message for a partner that the plan with this table never receives on; where there is none, the place after the last.
#[tactic(auto, using(crate::proofs::Sets::foreign_place))]
fn foreign_place(messages: [Message; 64], waiting: usize, table: &Table) -> usize
    requires { (waiting ≤ 64) × (every message_in_limits (take waiting messages) ≡ true) }
    ensures { (ps : List ℕ) → Heard table.now ps → result ≡ foreign ps 0 (take waiting messages) }
{
    for (i, m) in messages[..waiting].iter().enumerate() {
        if !heard(table, m.partner) {
            return i;
        }
    }
    waiting
}

// The message at a place.
#[tactic(auto, using(crate::proofs::Sets::letter_at))]
fn letter_at(messages: [Message; 64], place: usize) -> Message
    requires { place < 64 }
    ensures { result ≡ get_or messages place no_message }
{
    messages[place]
}

// The message at a place is handed out, where one waits there.
#[tactic(auto, using(crate::proofs::Sets::handed))]
pub(crate) fn handed(state: State, place: usize) -> Collected
    requires { in_limits state ≡ true }
    ensures { result ≡ handing place state }
{
    if state.waiting <= place {
        return Collected {
            refusal: 15,
            message: made::no_message(),
            state,
        };
    }
    Collected {
        refusal: 0,
        message: letter_at(state.messages, place),
        state: left(state, place),
    }
}

// The oldest message for such a partner is handed out, from a state that has the plan with this table.
#[tactic(auto, using(crate::proofs::Sets::collect_by))]
pub(crate) fn collect_by(state: State, table: &Table) -> Collected
    requires { in_limits state ≡ true }
    ensures { (p : Plan) → Heard table.now (partners_of p) → result ≡ collect_by p state }
{
    handed(state, foreign_place(state.messages, state.waiting, table))
}
