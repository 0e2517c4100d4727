// Refusal 17: which numbers of a state are within their limits, decided from the state alone.
ghost use Rattle.std.specs.Prelude.{ℕ, ◌≤◌, eqb, leb, length, drop, take, ◌&&◌, [], ◌∷◌, ◌≡◌};
ghost use Rattle.plan.specs.Found.{among};
ghost use Rattle.plan.specs.Answers.{answer_of, table_into, flags_for};
ghost use Rattle.plan.specs.Read.{read_plan};
ghost use Rattle.order.specs.Expression.{is_fault_number};
ghost use Rattle.order.specs.Lists.{every};
ghost use Rattle.order.specs.State.{faulty, undoing, handling, state_in};
ghost use Rattle.machine.specs.Planned.{Bare};
ghost use Rattle.machine.specs.Limits.{exchanged, message_in_limits, root_in_limits, mark_in_limits, order_in_limits, in_limits, plan_in};

use super::{Message, State};
use order::{Order, fault, mark};
use plan::table::{LENGTH, Table};
use plan::{Answer, Refusal};

// Whether a partner, an operation, a count of values and a partner to reply to are within their rules.
#[tactic(auto, using(std::proofs::lemmas::Bool::Decides::nat_tests), unfolding(crate::specs::Limits::exchanged))]
pub fn exchange_ruled(partner: u32, operation: u32, count: u32, reply: u32) -> bool
    ensures { result ≡ exchanged partner operation count reply }
{
    partner < 64 && operation < 64 && 1 <= count && count <= 4 && reply < 64
}

// Whether the values behind the first `count` are 0.
fn rest_zero(values: [u32; 4], count: u32) -> bool
    ensures { result ≡ every (eqb 0) (drop count values) }
{
    values.iter().skip(count as usize).all(|x| *x == 0)
}

// A message that waits.
#[tactic(auto, using(std::proofs::lemmas::Bool::Decides::nat_tests), unfolding(crate::specs::Limits::message_in_limits))]
fn message_ruled(m: Message) -> bool
    ensures { result ≡ message_in_limits m }
{
    exchange_ruled(m.partner, m.operation, m.count, m.reply) && rest_zero(m.values, m.count)
}

// Whether a mark is that of a scope that faulted, which has a choice of a fault part beside it: faulty, undoing or handling.
#[tactic(auto, using(std::proofs::lemmas::Bool::Decides::nat_tests), unfolding(plan::specs::Found::among))]
fn is_chosen(mark: u8) -> bool
    ensures { result ≡ among (state_in mark) (faulty ∷ undoing ∷ handling ∷ []) }
{
    let state = mark % 16;
    mark::FAULTY <= state && state <= mark::HANDLING
}

// The mark of the root.
#[tactic(auto, using(std::proofs::lemmas::Bool::Decides::nat_tests), unfolding(crate::specs::Limits::root_in_limits, plan::specs::Found::among))]
fn root_ruled(mark: u8) -> bool
    ensures { result ≡ root_in_limits mark }
{
    mark < 2 || is_chosen(mark)
}

// The mark itself, and 0 for one that may have a choice: at most 8 exactly where the mark is within its limits. A state saved before there were choices has
// none, and is within them as it was.
#[tactic(auto, using(std::proofs::lemmas::Bool::Decides::nat_tests), unfolding(crate::specs::Limits::mark_in_limits))]
fn bare(mark: u8) -> u8
    ensures { Bare mark result }
{
    if is_chosen(mark) { 0 } else { mark }
}

// Whether some numbers are at most this. It looks at all of them and not only up to the first that is beyond, so that many are compared at once.
fn at_most(s: &[u8], most: u8) -> bool
    ensures { result ≡ every (λ x. leb x most) s.now }
{
    let mut largest = 0;
    for x in s {
        largest = largest.max(*x);
    }
    largest <= most
}

// The marks of the activities, all of them looked at likewise.
fn marks_ruled(marks: &[u8]) -> bool
    ensures { result ≡ every mark_in_limits marks.now }
{
    let mut largest = 0;
    for x in marks {
        largest = largest.max(bare(*x));
    }
    largest <= 8
}

// The number of a fault: 0 to 5, and 16 and beyond.
#[tactic(auto, using(std::proofs::lemmas::Bool::Decides::nat_tests), unfolding(order::specs::Expression::is_fault_number))]
fn fault_ruled(number: u8) -> bool
    ensures { result ≡ is_fault_number number }
{
    number <= fault::NO_SUCH_PARTNER || 16 <= number
}

// An order.
#[tactic(auto, using(std::proofs::lemmas::Bool::Decides::nat_tests), unfolding(crate::specs::Limits::order_in_limits))]
fn order_ruled(o: Order) -> bool
    ensures { result ≡ order_in_limits o }
{
    root_ruled(o.root)
        && marks_ruled(&o.marks)
        && at_most(&o.bound, 1)
        && o.kept <= 32
        && fault_ruled(o.cause)
}

// The orders, live or not.
fn orders_ruled(orders: [Order; 16]) -> bool
    ensures { result ≡ every order_in_limits orders }
{
    orders.iter().all(|o| order_ruled(*o))
}

// The messages that wait.
fn messages_ruled(messages: [Message; 64], waiting: usize) -> bool
    requires { waiting ≤ 64 }
    ensures { result ≡ every message_in_limits (take waiting messages) }
{
    messages[..waiting].iter().all(|m| message_ruled(*m))
}

// A state.
#[tactic(auto, using(std::proofs::lemmas::Bool::Decides::nat_tests), unfolding(crate::specs::Limits::in_limits))]
pub fn state_ruled(state: State) -> bool
    ensures { result ≡ in_limits state }
{
    state.length <= 4096
        && state.waiting <= 64
        && orders_ruled(state.orders)
        && messages_ruled(state.messages, state.waiting)
}

// Whether the first n of some bytes are a plan, with its table, written over what that held, and its flags.
fn accepted(bytes: &[u8], n: usize, table: &mut Table, flags: &mut [u8; 16]) -> Answer
    requires { n ≤ length bytes.now }
    ensures is { result ≡ answer_of (read_plan (take n bytes.now)) }
    ensures rows { table.new ≡ table_into table.old (read_plan (take n bytes.now)) }
    ensures flags { flags.new ≡ flags_for (read_plan (take n bytes.now)) }
{
    plan::accept_over(&bytes[..n], table, flags)
}

// The plan that a state runs by: what accepting its bytes answers, with its table, written over what that held, and its flags; 17 where a number is
// outside its limit. Those who call it have made the table, blank, and it is not blanked again.
pub fn planned(state: State, table: &mut Table, flags: &mut [u8; 16]) -> Answer
    ensures is { result ≡ answer_of (plan_in state) }
    ensures rows { table.new ≡ table_into table.old (plan_in state) }
    ensures flags { flags.new ≡ flags_for (plan_in state) }
{
    if !state_ruled(state) {
        *table = [0u32; LENGTH];
        *flags = [0u8; 16];
        return Err(Refusal {
            number: 17,
            place: 0,
        });
    }
    // the plan is taken out: lent from within the state, it would have the whole state copied
    let bytes = state.plan;
    accepted(&bytes, state.length, table, flags)
}
