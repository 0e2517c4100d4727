// A message that comes in, by names or numbers.
use arrayvec::ArrayVec;
use commands::Trouble;
use drawing::Out;
use machine::{Message, State};
use names::NameError;
use papers::Clerk;
use phrases::{has_more, part};
use plan::table::{LENGTH, Table};
use text::Word;

// Why a post says no message: something is wrong with its words, or one of them is the name of nothing.
#[derive(Clone, Copy)]
enum Unread<'a> {
    Wrong(Trouble),
    Unnamed(&'a [u8]),
}

// What the word at a place of a post stands for, word n of them, with the place after it; nothing at the end of the line.
fn next_of<'a>(
    names: &[u8; 16896],
    line: &'a [u8],
    at: usize,
    n: usize,
) -> Result<Option<(u32, usize)>, Unread<'a>> {
    let w = text::word_at(line, at);
    if w.is_empty() {
        return Ok(None);
    }
    let word = part(line, w.from, w.to);
    match names::stands_for(names, word, n) {
        Ok(value) => Ok(Some((value, w.to))),
        Err(NameError::Large) => Err(Unread::Wrong(Trouble::Large)),
        Err(NameError::Unnamed) => Err(Unread::Unnamed(word)),
        Err(NameError::Unnumbered) => Err(Unread::Wrong(Trouble::Unnumbered)),
    }
}

// The words of a post as numbers: a partner, an operation, and up to eight values.
fn numbers_of<'a>(
    names: &[u8; 16896],
    line: &'a [u8],
    from: usize,
) -> Result<ArrayVec<u32, 11>, Unread<'a>> {
    let mut numbers = ArrayVec::new();
    let mut at = from;
    for n in 0..11 {
        match next_of(names, line, at, n)? {
            None => return Ok(numbers),
            Some((value, to)) => {
                let _ = numbers.try_push(value);
                at = to;
            }
        }
    }
    Err(Unread::Wrong(Trouble::Extra))
}

// Whom a post says to reply to, behind its word `reply`, by name or number; partner 0 where it names nobody.
fn reply_of<'a>(names: &[u8; 16896], line: &'a [u8], w: Word) -> Result<u32, Unread<'a>> {
    if w.is_empty() {
        return Ok(0);
    }
    match next_of(names, line, w.to, 0)? {
        None => Err(Unread::Wrong(Trouble::Missing)),
        Some((_, to)) if has_more(line, to) => Err(Unread::Wrong(Trouble::Extra)),
        Some((partner, _)) => Ok(partner),
    }
}

// The message that a post says.
fn posting<'a>(names: &[u8; 16896], line: &'a [u8], from: usize) -> Result<Message, Unread<'a>> {
    let reply = console::reply_in(line, from);
    let numbers = numbers_of(names, console::before(line, reply.from), from)?;
    if numbers.len() < 2 {
        return Err(Unread::Wrong(Trouble::Missing));
    }
    Ok(console::message_of(numbers.as_slice(), reply_of(names, line, reply)?))
}

// What becomes of a message that waits now.
fn put_fate(out: &mut Out, table: &Table, activities: usize, m: Message) {
    if !telling::is_received(table, activities, m.partner) {
        out.put(b"; the plan never receives on this partner, so it leaves by collect");
    } else if !telling::is_taken(table, activities, m.partner, m.operation, m.count) {
        out.put(b"; no receive of the plan takes it");
    }
}

fn put_waits(out: &mut Out, names: &[u8; 16896], state: State, m: Message) {
    let mut table = [0u32; LENGTH];
    let mut flags = [0u8; 16];
    if let Ok(plan) = machine::limits::planned(state, &mut table, &mut flags) {
        telling::put_letter(out, names, &table, plan.activities, m);
        out.put(b"; waits at place");
        out.put_next(state.waiting as u64);
        put_fate(out, &table, plan.activities, m);
    }
}

fn posted(clerk: &mut Clerk, m: Message) {
    let p = mail::post(clerk.desk.state, m);
    clerk.out.put_refusal(b"post", p.refusal);
    clerk.out.go_on();
    if p.refusal != 0 {
        sayings::put_refused(&mut clerk.out, p.refusal);
        clerk.desk.answer(p.refusal);
        return;
    }
    clerk.out.put(b" - ");
    put_waits(&mut clerk.out, &clerk.desk.names, clerk.desk.state, m);
    clerk.out.put_byte(b'\n');
    let tally = clerk.desk.tally;
    clerk.desk.change(p.state, tally);
}

// A name that nobody has.
fn unnamed(clerk: &mut Clerk, number: u64, word: &[u8]) {
    clerk.out.put(b"error");
    clerk.out.put_next(number);
    clerk.out.put(b" no such name: ");
    clerk.out.put(word);
    clerk.out.put_byte(b'\n');
    clerk.desk.fail();
}

// Posts a message.
pub(crate) fn post(clerk: &mut Clerk, line: &[u8], from: usize, number: u64) {
    match posting(&clerk.desk.names, line, from) {
        Ok(m) => posted(clerk, m),
        Err(Unread::Wrong(why)) => console::wrong(clerk, number, why),
        Err(Unread::Unnamed(word)) => unnamed(clerk, number, word),
    }
}
