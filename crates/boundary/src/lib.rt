// The engine for callers in other languages: bytes and numbers go in, one number comes out. A state is the caller's bytes, which each call that changes it
// brings up to date. The crate boundary_c has its exports for C.
#![tactic(auto)]

ghost use Rattle.std.specs.Prelude.{◌+◌, ◌*◌, [], ◌∷◌, length, ◌≡◌};
ghost use Rattle.boundary.specs.Packed.{pair_of, triple_of, accept_number, show_number};
ghost use Rattle.boundary.specs.Engine as engine;
ghost use Rattle.plan.specs.Answers.{answer_of};
ghost use Rattle.plan.specs.Read.{read_plan};

use answers::step_number;
use machine::Message;
use offer::Offered;
use plan::table::LENGTH;
use plan::{Accepted, Answer, Refusal};
use show::Shown;

fn pair_of(number: u32, place: usize) -> u64
    ensures { result ≡ pair_of number place }
{
    u64::from(number) * 4294967296 + (place as u64) % 4294967296
}

fn triple_of(refusal: u32, start: usize, length: usize) -> u64
    ensures { result ≡ triple_of refusal start length }
{
    (refusal as u64) % 65536 * 281474976710656
        + (start as u64) % 16777216 * 16777216
        + (length as u64) % 16777216
}

#[tactic(auto, unfolding(crate::specs::Packed::accept_number))]
fn number_of(a: Answer) -> u64
    ensures { result ≡ accept_number a }
{
    match a {
        Err(Refusal { number, place }) => pair_of(number, place),
        Ok(Accepted { activities, .. }) => activities as u64,
    }
}

// Where bytes are refused as a plan, the refusal's number times 2^32, and its place; else how many activities and arms the plan has.
pub fn moonhalyard_accept(s: &[u8]) -> u64
    ensures { result ≡ accept_number (answer_of (read_plan s.now)) }
{
    let mut table = [0u32; LENGTH];
    let mut correlation = [0u8; 16];
    number_of(plan::accept_over(s, &mut table, &mut correlation))
}

// The refusal's number times 2^48, where activity k starts times 2^24, and how many bytes spell it; both 0 where it is refused.
#[tactic(auto, unfolding(crate::specs::Packed::show_number))]
pub fn moonhalyard_show(s: &[u8], k: u32) -> u64
    ensures { result ≡ show_number (read_plan s.now) s.now k }
{
    match show::show(s, k as usize) {
        Ok(Shown { part, start }) => triple_of(0, start, part.len()),
        Err(refusal) => triple_of(refusal, 0, 0),
    }
}

// How much is offered, as one number.
#[tactic(auto, unfolding(crate::specs::Engine::offers_number))]
fn offers_number(x: Offered) -> u64
    ensures { result ≡ engine.offers_number x }
{
    let n = (x.refusal as u64) % 16777216 * 1099511627776 + (x.many as u64) % 4294967296;
    if x.held { n + 4294967296 } else { n }
}

// Loads the plan that some bytes spell. The refusal's number times 2^32, and its place; 18 times 2^32 where `state` has not 12,748 bytes.
pub fn moonhalyard_load(plan: &[u8], state: &mut [u8]) -> u64
    ensures is { result ≡ engine.load_number plan.now state.old }
    ensures bytes { state.new ≡ engine.load_bytes plan.now state.old }
{
    let r = machine::load(plan);
    if store::pack(r.state, machine::no_tally(), state) {
        pair_of(r.refusal, r.place)
    } else {
        pair_of(18, 0)
    }
}

// Posts a message, with the partner to reply to. The refusal or 0.
pub fn moonhalyard_post(
    state: &mut [u8],
    partner: u32,
    operation: u32,
    count: u32,
    v0: u32,
    v1: u32,
    v2: u32,
    v3: u32,
    reply: u32,
) -> u32
    ensures is { result ≡ engine.post_number (record { partner = partner; operation = operation; count = count; values = v0 ∷ v1 ∷ v2 ∷ v3 ∷ []; reply = reply }) state.old }
    ensures bytes { state.new ≡ engine.post_bytes (record { partner = partner; operation = operation; count = count; values = v0 ∷ v1 ∷ v2 ∷ v3 ∷ []; reply = reply }) state.old }
{
    let k = store::unpack(&state[..]);
    let values = [v0, v1, v2, v3];
    let m = Message {
        partner,
        operation,
        count,
        values,
        reply,
    };
    let r = mail::post(k.state, m);
    if r.refusal == 0 {
        store::pack(r.state, k.tally, state);
        return 0;
    }
    r.refusal
}

// Collects a message into the first 32 bytes of `message`. The refusal or 0; 18 where `message` has fewer.
pub fn moonhalyard_collect(state: &mut [u8], message: &mut [u8]) -> u32
    ensures is { result ≡ engine.collect_number state.old message.old }
    ensures bytes { state.new ≡ engine.collect_bytes state.old message.old }
    ensures message { message.new ≡ engine.collect_message state.old message.old }
{
    if message.len() < 32 {
        return 18;
    }
    let k = store::unpack(&state[..]);
    let r = mail::collect(k.state);
    store::write_message(r.message, message);
    if r.refusal == 0 {
        store::pack(r.state, k.tally, state);
        return 0;
    }
    r.refusal
}

// Drops the message that waits at a place, into the first 32 bytes of `message`. The refusal or 0; 18 where `message` has fewer.
pub fn moonhalyard_drop(state: &mut [u8], place: usize, message: &mut [u8]) -> u32
    ensures is { result ≡ engine.drop_number place state.old message.old }
    ensures bytes { state.new ≡ engine.drop_bytes place state.old message.old }
    ensures message { message.new ≡ engine.drop_message place state.old message.old }
{
    if message.len() <= 31 {
        return 18;
    }
    let k = store::unpack(&state[..]);
    let r = mail::drop_at(k.state, place);
    store::write_message(r.message, message);
    if r.refusal == 0 {
        store::pack(r.state, k.tally, state);
        return 0;
    }
    r.refusal
}

// The step that a choice would take, not taken: the refusal's number times 2^32, the slot times 2^24, the activity times 2^16, the message place
// times 2^8.
pub fn moonhalyard_offer(state: &[u8], choice: usize) -> u64
    ensures { result ≡ engine.offer_number choice state.now }
{
    let k = store::unpack(state);
    step_number(offer::offer(k.state, choice))
}

// How much is offered: the refusal's number times 2^40, 2^32 where something is held, and how many steps.
pub fn moonhalyard_offers(state: &[u8]) -> u64
    ensures { result ≡ engine.offers_of state.now }
{
    let k = store::unpack(state);
    offers_number(offer::offers(k.state))
}

// Writes the steps that are offered from the choice `first` on into the front of `out`, as `moonhalyard_offer` answers them, as many as there is room for.
// How many these are, or the refusal's number times 2^32.
pub fn moonhalyard_list(state: &[u8], first: u32, out: &mut [u64]) -> u64
    ensures is { result ≡ engine.list_number first state.now out.old }
    ensures out { out.new ≡ engine.list_out first state.now out.old }
{
    let k = store::unpack(state);
    let r = listing::list(k.state, first, out);
    pair_of(r.refusal, r.many)
}

// Takes the step with a choice: as `moonhalyard_offer` answers, with the number of the order's end, if any, and 2^40 times that of the fault by which it ended so.
pub fn moonhalyard_step(state: &mut [u8], choice: usize) -> u64
    ensures is { result ≡ engine.step_of choice state.old }
    ensures bytes { state.new ≡ engine.step_bytes choice state.old }
{
    let k = store::unpack(&state[..]);
    let r = step::take_step(k.state, choice, k.tally);
    let x = r.answer;
    if x.refusal == 0 {
        store::pack(r.state, r.tally, state);
        return step_number(x);
    }
    step_number(x)
}

// Takes the steps with these choices, as far as the budget goes, which is left with what remains of it. The refusal or 0.
pub fn moonhalyard_run(state: &mut [u8], choices: &[usize], budget: &mut usize) -> u32
    ensures is { result ≡ (engine.ran_in choices.now budget.old state.old).refusal }
    ensures bytes { state.new ≡ engine.run_bytes choices.now budget.old state.old }
    ensures left { budget.new + (engine.ran_in choices.now budget.old state.old).taken ≡ budget.old }
{
    // by the call below and not by `run::run`: called from one place, a run stands in its caller's frame, which saves 40 KB of stack
    let mut none = [0u64; 1];
    moonhalyard_tell(state, choices, budget, &mut none)
}

// The same, and the answer of each step taken is put into `told`, as `moonhalyard_step` answers it, as far as there is room.
pub fn moonhalyard_tell(
    state: &mut [u8],
    choices: &[usize],
    budget: &mut usize,
    told: &mut [u64],
) -> u32
    ensures is { result ≡ (engine.ran_in choices.now budget.old state.old).refusal }
    ensures bytes { state.new ≡ engine.run_bytes choices.now budget.old state.old }
    ensures left { budget.new + (engine.ran_in choices.now budget.old state.old).taken ≡ budget.old }
    ensures told { told.new ≡ engine.run_told choices.now budget.old state.old told.old }
{
    let k = store::unpack(&state[..]);
    let t = run::run_told(k.state, choices, budget, k.tally, told);
    if t.taken == 0 {
        return t.refusal;
    }
    store::pack(t.state, t.tally, state);
    t.refusal
}
