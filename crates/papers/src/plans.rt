// The commands on plans: plan, show, draw and names. The last plan is the first `plan` bytes of `bytes`, accepted or refused.
use super::writing::forget;
use super::{Clerk, first};
use drawing::{Out, Plan, put_drawing, put_names};
use plan::table::{LENGTH, Table};
use plan::{Accepted, Refusal};
use text::HexError;

// What a plan is found to be.
fn put_plan(s: &[u8], out: &mut Out) {
    let mut table = [0u32; LENGTH];
    let mut correlation = [0u8; 16];
    let a = plan::accept(s, &mut table, &mut correlation);
    match a {
        Err(Refusal { number, place }) => out.put_pair(b"plan", number as u64, place as u64),
        Ok(Accepted { activities, .. }) => out.put_pair(b"plan", 0, activities as u64),
    }
}

// What the last plan is called, and, where it is to be drawn, its drawing; a blank line.
fn put_accepted(
    names: &[u8; 16896],
    table: &Table,
    correlation: &[u8; 16],
    variables: u32,
    activities: usize,
    drawn: bool,
    out: &mut Out,
) {
    put_names(out, names, correlation, variables);
    if drawn {
        let plan = Plan {
            names,
            table,
            correlation,
        };
        put_drawing(out, plan, activities);
    } else {
        out.put_byte(b'\n');
    }
}

fn put_refused(drawn: bool, number: u32, place: usize, out: &mut Out) {
    if drawn {
        out.put_pair(b"draw", number as u64, place as u64);
    } else {
        out.put_pair(b"names", number as u64, place as u64);
    }
}

fn put_draw(s: &[u8], names: &[u8; 16896], drawn: bool, out: &mut Out) {
    let mut table = [0u32; LENGTH];
    let mut correlation = [0u8; 16];
    let a = plan::accept(s, &mut table, &mut correlation);
    match a {
        Err(Refusal { number, place }) => put_refused(drawn, number, place, out),
        Ok(
            Accepted {
                variables,
                activities,
                ..
            },
        ) => put_accepted(
            names,
            &table,
            &correlation,
            variables,
            activities,
            drawn,
            out,
        ),
    }
}

// What a show finds, after its refusal.
fn put_show(s: &[u8], k: u32, out: &mut Out) {
    out.put(b"show ");
    match show::show(s, k as usize) {
        Ok(shown) => {
            out.put(b"0 ");
            out.put_hex(shown.part);
        }
        Err(refusal) => out.put_number(u64::from(refusal)),
    }
    out.put_byte(b'\n');
}

// The last plan drawn, with what it is called.
pub fn draw(clerk: &mut Clerk) {
    let plan = first(&clerk.desk.bytes, clerk.desk.plan);
    put_draw(plan, &clerk.desk.names, true, &mut clerk.out);
}

// What the last plan is called.
pub fn names(clerk: &mut Clerk) {
    let plan = first(&clerk.desk.bytes, clerk.desk.plan);
    put_draw(plan, &clerk.desk.names, false, &mut clerk.out);
}

// Activity k of the last plan.
pub fn show(clerk: &mut Clerk, k: u32) {
    let plan = first(&clerk.desk.bytes, clerk.desk.plan);
    put_show(plan, k, &mut clerk.out);
}

// The first bytes of the last plan, so many of them, are loaded: the desk is on a fresh state, with an empty tally.
pub(crate) fn fresh(clerk: &mut Clerk, length: usize) {
    let loaded = machine::load(first(&clerk.desk.bytes, length));
    clerk.desk.plan = length;
    clerk.desk.change(loaded.state, machine::no_tally());
    clerk.desk.answer(loaded.refusal);
}

// A plan in hexadecimal becomes the last plan, with a fresh state; what is no hexadecimal changes nothing.
pub fn load(clerk: &mut Clerk, word: &[u8], number: u64) {
    match text::decode(word, &mut clerk.desk.bytes) {
        Ok(count) => {
            forget(
                clerk.desk.state,
                &clerk.desk.bytes,
                count,
                &mut clerk.desk.names,
            );
            put_plan(first(&clerk.desk.bytes, count), &mut clerk.out);
            fresh(clerk, count);
        }
        Err(HexError::Long) => clerk.error(number, b"more than 8000 bytes"),
        Err(HexError::Bad) => clerk.error(number, b"not hexadecimal"),
    }
}
