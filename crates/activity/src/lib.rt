// The step that an activity has by itself, and the binding of a variable.
#![tactic(auto)]

ghost use Rattle.std.specs.Prelude.{◌<◌, ◌≡◌};
ghost use Rattle.order.specs.State.{marked as marked_of};
ghost use Rattle.order.specs.Answering.{runs_of, finishes_of, raises_of, leaves_of, Binds, Enters, Repeats, SendStep, StepOf, Closes, HandsOn, StepsAt, WorthAt};

use beginning::begin;
use order::evaluation::evaluate_at;
use order::fault::{self, Fault};
use order::marks::{begun_in, cleared, marked, runs, with_marks};
use order::memory::{forgetting, handed_on, remembered};
use order::rows::{end_of, kind_of};
use order::sending::{all_bound, reaches};
use order::{Order, Way, Went, mark};
use plan::kind;
use plan::table::{EXPRESSION, PARTNER, Table, VARIABLE, WIDTH};

// Activity k is over.
pub fn finishes(k: usize, order: Order) -> Went
    ensures { result ≡ finishes_of k order }
{
    Went {
        way: Way::Over,
        order: marked(k, mark::IDLE, order),
    }
}

// Activity k raises a fault of that number.
pub fn raises(number: u8, k: usize, order: Order) -> Went
    ensures { result ≡ raises_of number k order }
{
    Went {
        way: Way::Raising { number },
        order: marked(k, mark::IDLE, order),
    }
}

// Activity k lets the order leave.
fn leaves(k: usize, order: Order) -> Went
    ensures { result ≡ leaves_of k order }
{
    Went {
        way: Way::Leaving,
        order: marked(k, mark::IDLE, order),
    }
}

// The order with variable v bound to x.
pub fn binding(v: u32, x: u32, order: Order) -> Order
    ensures { Binds v x order result }
{
    let i = v as usize;
    let mut o = order;
    if i < 16 {
        o.values[i] = x;
        o.bound[i] = 1;
    }
    o
}

// What stands within activity k from row c on begins.
fn enters(table: &Table, k: usize, c: usize, order: Order) -> Went
    ensures { Enters table.now k c order result }
{
    let o = marked(k, mark::INSIDE, order);
    let r = begun_in(o, begin(table, c, o.marks));
    if r.way.is_over() {
        finishes(k, r.order)
    } else {
        r
    }
}

// Repeat k decides again.
pub fn again(k: usize, order: Order) -> Went
    ensures { result ≡ runs_of (marked_of k 1 order) }
{
    runs(marked(k, mark::ACTIVE, order))
}

// Repeat k begins its body afresh.
fn repeats(table: &Table, k: usize, order: Order) -> Went
    requires { k < 256 }
    ensures { Repeats table.now k order result }
{
    let marks = cleared(k + 1, end_of(table, k), order.marks);
    let o = marked(k, mark::INSIDE, with_marks(marks, order));
    let r = begun_in(o, begin(table, k + 1, o.marks));
    if r.way.is_over() {
        again(k, r.order)
    } else {
        r
    }
}

// Scope k closes, which stands in the part q and has an undo part. Where it has no room, which no step that is offered leads to, the order stays as it is.
fn closes(q: usize, k: usize, order: Order) -> Went
    requires { k < 256 }
    ensures { Closes q k order result }
{
    let f = forgetting(k + 1, order);
    if f.kept < 32 {
        finishes(k, remembered(k, q, f))
    } else {
        runs(order)
    }
}

// Scope k closes, which stands in the part q and has no undo part: it is not remembered, and hands on what is remembered for it.
fn hands_on(q: usize, k: usize, order: Order) -> Went
    requires { k < 256 }
    ensures { HandsOn q k order result }
{
    finishes(k, handed_on(k + 1, q, order))
}

// A send: a variable that is not bound, its partner's too, is a fault before a partner that is none.
fn sends(table: &Table, k: usize, order: Order) -> Went
    requires { k < 256 }
    ensures { SendStep table.now k order result }
{
    if !all_bound(table, k, &order.bound) {
        raises(fault::UNBOUND_VARIABLE, k, order)
    } else if !reaches(table, k, &order.values) {
        raises(fault::NO_SUCH_PARTNER, k, order)
    } else {
        finishes(k, order)
    }
}

// What the expression of row k comes to.
fn worth_at(table: &Table, k: usize, order: Order) -> Result<u32, Fault>
    requires { k < 256 }
    ensures { WorthAt table.now k order result }
{
    evaluate_at(table, order, table[k * WIDTH + EXPRESSION] as usize, 8)
}

// A set.
fn sets(table: &Table, k: usize, order: Order) -> Went
    requires { k < 256 }
    ensures { StepOf 3 table.now k order result }
{
    match worth_at(table, k, order) {
        Err(fault) => raises(fault.number, k, order),
        Ok(value) => finishes(k, binding(table[k * WIDTH + VARIABLE], value, order)),
    }
}

// A raise with a number of its own, which stands where a send has its partner.
fn raises_its_number(table: &Table, k: usize, order: Order) -> Went
    requires { k < 256 }
    ensures { StepOf 13 table.now k order result }
{
    let number = u8::try_from(table[k * WIDTH + PARTNER]).unwrap_or(fault::PLAIN_RAISE);
    raises(number, k, order)
}

// A choose decides.
fn chooses(table: &Table, k: usize, order: Order) -> Went
    requires { k < 256 }
    ensures { StepOf 6 table.now k order result }
{
    match worth_at(table, k, order) {
        Err(fault) => raises(fault.number, k, order),
        Ok(0) => enters(table, k, end_of(table, k + 1), order),
        Ok(_) => enters(table, k, k + 1, order),
    }
}

// A repeat decides.
fn decides(table: &Table, k: usize, order: Order) -> Went
    requires { k < 256 }
    ensures { StepOf 7 table.now k order result }
{
    match worth_at(table, k, order) {
        Err(fault) => raises(fault.number, k, order),
        Ok(0) => finishes(k, order),
        Ok(_) => repeats(table, k, order),
    }
}

// An arm of a pick takes its message.
fn takes(table: &Table, k: usize, order: Order) -> Went
    requires { k < 256 }
    ensures { StepOf 255 table.now k order result }
{
    begun_in(order, begin(table, k + 1, order.marks))
}

// Activity k has its step, where there is one. It stands in the part whose first activity has the number q.
pub fn itself(table: &Table, q: usize, k: usize, order: Order) -> Went
    ensures { StepsAt table.now q k order result }
{
    if 256 <= k {
        return runs(order);
    }
    match kind_of(table, k) {
        kind::SEND | kind::HELD_SEND => sends(table, k, order),
        kind::RECEIVE | kind::ASKING_RECEIVE => finishes(k, order),
        kind::SET => sets(table, k, order),
        kind::RAISE => raises(fault::PLAIN_RAISE, k, order),
        kind::NUMBERED_RAISE => raises_its_number(table, k, order),
        kind::LEAVE => leaves(k, order),
        kind::CHOOSE => chooses(table, k, order),
        kind::REPEAT => decides(table, k, order),
        kind::SCOPE | kind::NUMBERED_SCOPE => closes(q, k, order),
        kind::OPEN_SCOPE => hands_on(q, k, order),
        kind::ARM => takes(table, k, order),
        _ => runs(order),
    }
}
