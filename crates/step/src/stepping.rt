// A step that is on offer is taken: what it does to the messages, to its order and to the tally.
ghost use Rattle.std.specs.Prelude.{◌<◌, get_or, ◌≡◌};
ghost use Rattle.machine.specs.Calls.{gives, counted as counted_of, count_start, count_end};
ghost use Rattle.machine.specs.State.{no_message};
ghost use Rattle.step.specs.Stepping.{Worths, SentValues, SentReply, SendsMail, MovesMail, Nexts, MovesFrom, Moves};

use super::Change;
use machine::{Mail, Message, Step, Tally, made};
use mail::letters;
use order::sending::{may_send, partner_to};
use order::{End, Next, Order};
use plan::kind;
use plan::table::{COUNT, OPERATION, PARTNER, Table, VARIABLES, WIDTH};

// The value of variable v.
fn value_of(order: Order, v: u32) -> u32
    ensures { Worths order v result }
{
    if v < 16 { order.values[v as usize] } else { 0 }
}

// The values of the variables that row k names, with zeros behind them.
#[tactic(auto, using(crate::proofs::Sets::sent_values))]
fn sent_values(table: &Table, k: usize, order: Order) -> [u32; 4]
    requires { k < 256 }
    ensures { SentValues table.now k order result }
{
    let mut out = [0; 4];
    let count = table[k * WIDTH + COUNT];
    if 4 < count {
        return out;
    }
    for i in 0..count as usize {
        out[i] = value_of(order, table[k * WIDTH + VARIABLES + i]);
    }
    out
}

// The reply partner that the message of the send in row k carries: a send to a held partner has it in the place of a partner, and any other carries 0.
#[tactic(auto, using(crate::proofs::Sets::sent_reply))]
fn sent_reply(table: &Table, k: usize) -> u32
    requires { k < 256 }
    ensures { SentReply table.now k result }
{
    if table[k * WIDTH] == kind::HELD_SEND {
        table[k * WIDTH + PARTNER]
    } else {
        0
    }
}

// The messages after the send in row k: its message is added where it would send.
#[tactic(auto, using(crate::proofs::Sets::sent))]
fn sent(table: &Table, k: usize, order: Order, messages: [Message; 64], waiting: usize) -> Mail
    requires { k < 256 }
    ensures { SendsMail table.now k order messages waiting result }
{
    let bound = order.bound;
    let held = order.values;
    if !may_send(table, k, &bound, &held) {
        return Mail { messages, waiting };
    }
    let m = Message {
        partner: partner_to(table, k, &held),
        operation: table[k * WIDTH + OPERATION],
        count: table[k * WIDTH + COUNT],
        values: sent_values(table, k, order),
        reply: sent_reply(table, k),
    };
    letters::with_message(messages, waiting, m)
}

// The messages after the step of activity k: a send adds one, a take removes one.
#[tactic(auto, using(crate::proofs::Sets::messages_after))]
fn messages_after(
    table: &Table,
    activities: usize,
    messages: [Message; 64],
    waiting: usize,
    order: Order,
    k: usize,
    place: usize,
) -> Mail
    ensures { MovesMail table.now activities messages waiting order k place result }
{
    if 256 <= k {
        return Mail { messages, waiting };
    }
    let kind = table[k * WIDTH];
    if kind == kind::SEND || kind == kind::HELD_SEND {
        sent(table, k, order, messages, waiting)
    } else if kind == kind::RECEIVE || kind == kind::ASKING_RECEIVE || kind == kind::ARM {
        letters::without_message(messages, waiting, place)
    } else {
        Mail { messages, waiting }
    }
}

// What a message gives to whoever takes it: its four values, and then its reply partner.
#[tactic(auto, using(crate::proofs::Sets::given_by))]
fn given_by(m: Message) -> [u32; 5]
    ensures { result ≡ gives m }
{
    let values = m.values;
    [values[0], values[1], values[2], values[3], m.reply]
}

// What the message at a place gives; nothing but zeros where there is no such place.
#[tactic(auto, using(crate::proofs::Sets::letter_values))]
fn letter_values(messages: [Message; 64], place: usize) -> [u32; 5]
    ensures { result ≡ gives (get_or messages place no_message) }
{
    if place < 64 {
        given_by(messages[place])
    } else {
        given_by(made::no_message())
    }
}

// One more, up to the greatest.
#[tactic(auto, using(crate::proofs::Sets::counted))]
fn counted(n: u32) -> u32
    ensures { result ≡ counted_of n }
{
    n.saturating_add(1)
}

// One more order that started.
#[tactic(auto, using(crate::proofs::Sets::count_start))]
fn count_start(tally: Tally) -> Tally
    ensures { result ≡ count_start tally }
{
    Tally {
        started: counted(tally.started),
        ..tally
    }
}

// One more order that ended so, if it did.
#[tactic(auto, using(crate::proofs::Sets::count_end))]
fn count_end(end: End, tally: Tally) -> Tally
    ensures { result ≡ count_end end tally }
{
    match end {
        End::None => tally,
        End::Well => Tally {
            well: counted(tally.well),
            ..tally
        },
        End::Handled => Tally {
            handled: counted(tally.handled),
            ..tally
        },
        End::Failed => Tally {
            failed: counted(tally.failed),
            ..tally
        },
        End::Left => Tally {
            left: counted(tally.left),
            ..tally
        },
    }
}

// What an order moves to with the step of an activity: it takes the values of the message at a place, and moves on.
#[tactic(auto, using(crate::proofs::Sets::next_of))]
fn next_of(
    table: &Table,
    activities: usize,
    messages: [Message; 64],
    order: Order,
    activity: usize,
    place: usize,
) -> Next
    ensures { Nexts table.now activities messages order activity place result }
{
    let values = letter_values(messages, place);
    let o = acting::taken_order(table, activities, order, activity, values);
    acting::step_order(table, activities, o, activity)
}

// What the step of an activity of the order in a slot changes: the order takes the values of its message and moves on, and the messages move too.
#[tactic(auto, using(crate::proofs::Sets::moved_from))]
fn moved_from(
    table: &Table,
    activities: usize,
    order: Order,
    messages: [Message; 64],
    waiting: usize,
    slot: usize,
    activity: usize,
    place: usize,
    tally: Tally,
) -> Change
    ensures { MovesFrom table.now activities order messages waiting slot activity place tally result }
{
    let n = next_of(table, activities, messages, order, activity, place);
    let w = messages_after(table, activities, messages, waiting, order, activity, place);
    let messages = w.messages;
    Change {
        answer: Step {
            refusal: 0,
            slot,
            activity,
            place,
            end: n.end,
            fault: n.fault,
        },
        order: n.order,
        messages,
        waiting: w.waiting,
        tally: count_end(n.end, tally),
    }
}

// What the offer of an activity and a place changes in the slot with this order: it is taken by the order, or by a new one where the slot is free.
#[tactic(auto, using(crate::proofs::Sets::moved))]
pub(crate) fn moved(
    table: &Table,
    activities: usize,
    order: Order,
    messages: [Message; 64],
    waiting: usize,
    slot: usize,
    activity: usize,
    place: usize,
    tally: Tally,
) -> Change
    ensures { Moves table.now activities order messages waiting slot activity place tally result }
{
    if order.root == 0 {
        let new = beginning::started_order(table);
        let y = count_start(tally);
        moved_from(
            table, activities, new, messages, waiting, slot, activity, place, y,
        )
    } else {
        moved_from(
            table, activities, order, messages, waiting, slot, activity, place, tally,
        )
    }
}
