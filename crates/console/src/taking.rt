// The commands that change a state: post, step, run and collect.
use super::answering::wrong;
use super::lists::{before, numbers_of, reply_in, reply_of, rest_of};
use arrayvec::ArrayVec;
use commands::Trouble;
use drawing::Out;
use machine::{Collected, Message, Step, Tally};
use order::End;
use papers::Clerk;
use wording::put_message;

// Number i of a message's; 0 where it has fewer.
fn at(numbers: &[u32], i: usize) -> u32 {
    numbers.get(i).copied().unwrap_or(0)
}

// A message by its numbers, partner, operation and values, and by the partner to reply to. Values beyond the fourth only count.
pub fn message_of(numbers: &[u32], reply: u32) -> Message {
    Message {
        partner: at(numbers, 0),
        operation: at(numbers, 1),
        count: numbers.len().saturating_sub(2).min(1000) as u32,
        values: [
            at(numbers, 2),
            at(numbers, 3),
            at(numbers, 4),
            at(numbers, 5),
        ],
        reply,
    }
}

// The message that a post says: a partner, an operation, and up to eight values; then the partner to reply to, where one is named.
fn posting(line: &[u8], from: usize) -> Result<Message, Trouble> {
    let reply = reply_in(line, from);
    let numbers = numbers_of(before(line, reply.from), from, 11)?;
    if numbers.len() < 2 {
        return Err(Trouble::Missing);
    }
    Ok(message_of(numbers.as_slice(), reply_of(line, reply)?))
}

// Posts a message.
pub(crate) fn post(clerk: &mut Clerk, line: &[u8], from: usize, number: u64) {
    match posting(line, from) {
        Ok(m) => {
            let p = mail::post(clerk.desk.state, m);
            clerk.out.put_refusal(b"post", p.refusal);
            let tally = clerk.desk.tally;
            clerk.desk.change(p.state, tally);
        }
        Err(why) => wrong(clerk, number, why),
    }
}

fn number_of(end: End) -> u64 {
    match end {
        End::None => 0,
        End::Well => 1,
        End::Handled => 2,
        End::Failed => 3,
        End::Left => 4,
    }
}

// The number of the fault by which an order ended handled or failed; where it did not, a dash.
fn put_fault(out: &mut Out, end: End, fault: u8) {
    match end {
        End::Handled | End::Failed => out.put_next(u64::from(fault)),
        End::None | End::Well | End::Left => out.put(b" -"),
    }
}

// What a step answers.
pub fn put_step(out: &mut Out, x: Step) {
    if x.refusal != 0 {
        out.put_refusal(b"step", x.refusal);
        return;
    }
    let end = x.end;
    out.put(b"step 0");
    out.put_next(x.slot as u64);
    out.put_next(x.activity as u64);
    out.put_next(x.place as u64);
    out.put_next(number_of(end));
    put_fault(out, end, x.fault);
    out.put_byte(b'\n');
}

pub(crate) fn step(clerk: &mut Clerk, choice: u32) {
    let r = step::take_step(clerk.desk.state, choice as usize, clerk.desk.tally);
    put_step(&mut clerk.out, r.answer);
    clerk.desk.change(r.state, r.tally);
}

// Takes steps by a budget and up to 1,000 choices.
pub(crate) fn run(clerk: &mut Clerk, line: &[u8], from: usize, number: u64) {
    match running(line, from) {
        Ok((budget, choices)) => {
            let mut left = budget as usize;
            let r = run::run(
                clerk.desk.state,
                choices.as_slice(),
                &mut left,
                clerk.desk.tally,
            );
            clerk
                .out
                .put_pair(b"run", r.taken as u64, u64::from(r.refusal));
            clerk.desk.change(r.state, r.tally);
        }
        Err(why) => wrong(clerk, number, why),
    }
}

// The budget and the choices of a line.
pub fn running(line: &[u8], from: usize) -> Result<(u32, ArrayVec<usize, 1000>), Trouble> {
    let numbers = numbers_of(line, from, 1002)?;
    match numbers.as_slice().first() {
        Some(budget) => Ok((*budget, rest_of(&numbers))),
        None => Err(Trouble::Missing),
    }
}

// A message that is handed out, behind its command word.
pub fn put_collected(out: &mut Out, word: &[u8], c: Collected) {
    if c.refusal != 0 {
        out.put_refusal(word, c.refusal);
        return;
    }
    out.put(word);
    out.put(b" 0");
    put_message(out, c.message);
    out.put_byte(b'\n');
}

pub(crate) fn collect(clerk: &mut Clerk) {
    let c = mail::collect(clerk.desk.state);
    put_collected(&mut clerk.out, b"collect", c);
    let tally = clerk.desk.tally;
    clerk.desk.change(c.state, tally);
}

// The five counts.
pub fn put_tally(out: &mut Out, tally: Tally) {
    out.put(b"tally");
    out.put_next(u64::from(tally.started));
    out.put_next(u64::from(tally.well));
    out.put_next(u64::from(tally.handled));
    out.put_next(u64::from(tally.failed));
    out.put_next(u64::from(tally.left));
    out.put_byte(b'\n');
}
