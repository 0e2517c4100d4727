// What changes nothing, told in words: the messages that wait, the tally, what is offered, orders, drawings and bytes.
use super::keeping::activities_of;
use drawing::Out;
use machine::{Message, State, Tally};
use papers::{Clerk, Desk, Said};
use plan::table::{LENGTH, Table};
use sayings::put_refused;

// A state without a plan has no such thing.
fn planless(clerk: &mut Clerk, word: &[u8]) {
    clerk.out.put_refusal(word, 17);
    clerk.out.go_on();
    put_refused(&mut clerk.out, 17);
    clerk.desk.answer(17);
}

fn has_plan(desk: &Desk) -> bool {
    0 < desk.state.length
}

// A command whose answer is words already.
pub(crate) fn planned(clerk: &mut Clerk, word: &[u8], line: &[u8], number: u64) {
    if has_plan(&clerk.desk) {
        console::answer(clerk, line, number);
    } else {
        planless(clerk, word);
    }
}

// The drawing, or why there is none.
pub(crate) fn drawn(clerk: &mut Clerk, line: &[u8], number: u64) {
    console::answer(clerk, line, number);
    if !has_plan(&clerk.desk) {
        clerk.out.go_on();
        clerk.out.put(b" - there is no plan: write one\n");
        clerk.desk.answer(2);
    }
}

// The bytes of an activity, or why there are none.
pub(crate) fn shown(clerk: &mut Clerk, k: u32, line: &[u8], number: u64) {
    drawn(clerk, line, number);
    if clerk.desk.said == Said::Well && activities_of(clerk.desk.state) <= k as usize {
        clerk.out.go_on();
        put_refused(&mut clerk.out, 16);
        clerk.desk.answer(16);
    }
}

fn put_choices(out: &mut Out, many: usize, held: bool) {
    out.go_on();
    out.put(b" - ");
    out.put_number(many as u64);
    if many == 1 {
        out.put(b" choice");
    } else {
        out.put(b" choices");
    }
    if held {
        out.put(b", and something is held");
    }
    out.put_byte(b'\n');
}

// What is offered, as numbers, with how much that is.
pub(crate) fn offer(clerk: &mut Clerk, line: &[u8], number: u64) {
    if !has_plan(&clerk.desk) {
        planless(clerk, b"offer");
        return;
    }
    let o = offer::offers(clerk.desk.state);
    console::answer(clerk, line, number);
    put_choices(&mut clerk.out, o.many, o.held);
}

fn put_counts(out: &mut Out, tally: Tally) {
    out.go_on();
    out.put(b" -");
    out.put_next(u64::from(tally.started));
    out.put(b" started; ended:");
    out.put_next(u64::from(tally.well));
    out.put(b" well,");
    out.put_next(u64::from(tally.handled));
    out.put(b" handled,");
    out.put_next(u64::from(tally.failed));
    out.put(b" failed,");
    out.put_next(u64::from(tally.left));
    out.put(b" left\n");
}

pub(crate) fn tally(clerk: &mut Clerk) {
    console::put_tally(&mut clerk.out, clerk.desk.tally);
    put_counts(&mut clerk.out, clerk.desk.tally);
}

// What becomes of a message.
fn put_fate(out: &mut Out, table: &Table, activities: usize, m: Message) {
    if !telling::is_received(table, activities, m.partner) {
        out.put(b"; leaves by collect\n");
    } else if telling::is_taken(table, activities, m.partner, m.operation, m.count) {
        out.put_byte(b'\n');
    } else {
        out.put(b"; no receive of the plan takes it\n");
    }
}

// A message that waits: its place, its numbers, and words.
fn put_one(
    out: &mut Out,
    names: &[u8; 16896],
    table: &Table,
    activities: usize,
    place: usize,
    m: Message,
) {
    out.put_aligned(place as u64);
    out.put_byte(b' ');
    wording::put_message(out, m);
    out.put(b" - ");
    telling::put_letter(out, names, table, activities, m);
    put_fate(out, table, activities, m);
}

// Each message that waits.
fn put_waiting(out: &mut Out, names: &[u8; 16896], state: State) {
    let mut table = [0u32; LENGTH];
    let mut flags = [0u8; 16];
    if let Ok(plan) = machine::limits::planned(state, &mut table, &mut flags) {
        for (place, m) in state.messages.iter().enumerate().take(state.waiting) {
            put_one(out, names, &table, plan.activities, place, *m);
        }
    }
    out.put_byte(b'\n');
}

// The messages that wait, a line for each, and a blank line.
pub(crate) fn waiting(clerk: &mut Clerk) {
    clerk.out.put(b"waiting");
    clerk.out.put_next(clerk.desk.state.waiting as u64);
    clerk.out.put_byte(b'\n');
    put_waiting(&mut clerk.out, &clerk.desk.names, clerk.desk.state);
}
