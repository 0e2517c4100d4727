// The exports of the crate boundary for C: the engine for callers in other languages, as a static library.
#![tactic(auto)]

ghost use Rattle.std.specs.Prelude.{◌+◌, [], ◌∷◌, ◌≡◌};
ghost use Rattle.boundary.specs.Engine as engine;
ghost use Rattle.boundary.specs.Packed.{accept_number, show_number};
ghost use Rattle.plan.specs.Answers.{answer_of};
ghost use Rattle.plan.specs.Read.{read_plan};

// Where bytes are refused as a plan, the refusal's number times 2^32, and its place; else how many activities and arms the plan has.
#[unsafe(no_mangle)]
pub extern "C" fn moonhalyard_accept(s: &[u8]) -> u64
    ensures { result ≡ accept_number (answer_of (read_plan s.now)) }
{
    boundary::moonhalyard_accept(s)
}

// The refusal's number times 2^48, where activity k starts times 2^24, and how many bytes spell it; both 0 where it is refused.
#[unsafe(no_mangle)]
pub extern "C" fn moonhalyard_show(s: &[u8], k: u32) -> u64
    ensures { result ≡ show_number (read_plan s.now) s.now k }
{
    boundary::moonhalyard_show(s, k)
}

// Loads the plan that some bytes spell. The refusal's number times 2^32, and its place; 18 times 2^32 where `state` has not 12,748 bytes.
#[unsafe(no_mangle)]
pub extern "C" fn moonhalyard_load(plan: &[u8], state: &mut [u8]) -> u64
    ensures is { result ≡ engine.load_number plan.now state.old }
    ensures bytes { state.new ≡ engine.load_bytes plan.now state.old }
{
    boundary::moonhalyard_load(plan, state)
}

// Posts a message, with the partner to reply to. The refusal or 0.
#[unsafe(no_mangle)]
pub extern "C" fn moonhalyard_post(
    state: &mut [u8],
    partner: u32,
    operation: u32,
    count: u32,
    v0: u32,
    v1: u32,
    v2: u32,
    v3: u32,
    reply: u32,
) -> u32
    ensures is { result ≡ engine.post_number (record { partner = partner; operation = operation; count = count; values = v0 ∷ v1 ∷ v2 ∷ v3 ∷ []; reply = reply }) state.old }
    ensures bytes { state.new ≡ engine.post_bytes (record { partner = partner; operation = operation; count = count; values = v0 ∷ v1 ∷ v2 ∷ v3 ∷ []; reply = reply }) state.old }
{
    boundary::moonhalyard_post(state, partner, operation, count, v0, v1, v2, v3, reply)
}

// Collects a message into the first 32 bytes of `message`. The refusal or 0; 18 where `message` has fewer.
#[unsafe(no_mangle)]
pub extern "C" fn moonhalyard_collect(state: &mut [u8], message: &mut [u8]) -> u32
    ensures is { result ≡ engine.collect_number state.old message.old }
    ensures bytes { state.new ≡ engine.collect_bytes state.old message.old }
    ensures message { message.new ≡ engine.collect_message state.old message.old }
{
    boundary::moonhalyard_collect(state, message)
}

// Drops the message that waits at a place, into the first 32 bytes of `message`. The refusal or 0; 18 where `message` has fewer.
#[unsafe(no_mangle)]
pub extern "C" fn moonhalyard_drop(state: &mut [u8], place: usize, message: &mut [u8]) -> u32
    ensures is { result ≡ engine.drop_number place state.old message.old }
    ensures bytes { state.new ≡ engine.drop_bytes place state.old message.old }
    ensures message { message.new ≡ engine.drop_message place state.old message.old }
{
    boundary::moonhalyard_drop(state, place, message)
}

// The step that a choice would take, not taken: the refusal's number times 2^32, the slot times 2^24, the activity times 2^16, the message place
// times 2^8.
#[unsafe(no_mangle)]
pub extern "C" fn moonhalyard_offer(state: &[u8], choice: usize) -> u64
    ensures { result ≡ engine.offer_number choice state.now }
{
    boundary::moonhalyard_offer(state, choice)
}

// How much is offered: the refusal's number times 2^40, 2^32 where something is held, and how many steps.
#[unsafe(no_mangle)]
pub extern "C" fn moonhalyard_offers(state: &[u8]) -> u64
    ensures { result ≡ engine.offers_of state.now }
{
    boundary::moonhalyard_offers(state)
}

// Writes the steps that are offered from the choice `first` on into the front of `out`, as `moonhalyard_offer` answers them, as many as there is room for.
// How many these are, or the refusal's number times 2^32.
#[unsafe(no_mangle)]
pub extern "C" fn moonhalyard_list(state: &[u8], first: u32, out: &mut [u64]) -> u64
    ensures is { result ≡ engine.list_number first state.now out.old }
    ensures out { out.new ≡ engine.list_out first state.now out.old }
{
    boundary::moonhalyard_list(state, first, out)
}

// Takes the step with a choice: as `moonhalyard_offer` answers, with the number of the order's end, if any, and 2^40 times that of the fault by which it ended so.
#[unsafe(no_mangle)]
pub extern "C" fn moonhalyard_step(state: &mut [u8], choice: usize) -> u64
    ensures is { result ≡ engine.step_of choice state.old }
    ensures bytes { state.new ≡ engine.step_bytes choice state.old }
{
    boundary::moonhalyard_step(state, choice)
}

// Takes the steps with these choices, as far as the budget goes, which is left with what remains of it. The refusal or 0.
#[unsafe(no_mangle)]
pub extern "C" fn moonhalyard_run(state: &mut [u8], choices: &[usize], budget: &mut usize) -> u32
    ensures is { result ≡ (engine.ran_in choices.now budget.old state.old).refusal }
    ensures bytes { state.new ≡ engine.run_bytes choices.now budget.old state.old }
    ensures left { budget.new + (engine.ran_in choices.now budget.old state.old).taken ≡ budget.old }
{
    boundary::moonhalyard_run(state, choices, budget)
}

// The same, and the answer of each step taken is put into `told`, as `moonhalyard_step` answers it, as far as there is room.
#[unsafe(no_mangle)]
pub extern "C" fn moonhalyard_tell(
    state: &mut [u8],
    choices: &[usize],
    budget: &mut usize,
    told: &mut [u64],
) -> u32
    ensures is { result ≡ (engine.ran_in choices.now budget.old state.old).refusal }
    ensures bytes { state.new ≡ engine.run_bytes choices.now budget.old state.old }
    ensures left { budget.new + (engine.ran_in choices.now budget.old state.old).taken ≡ budget.old }
    ensures told { told.new ≡ engine.run_told choices.now budget.old state.old told.old }
{
    boundary::moonhalyard_tell(state, choices, budget, told)
}
