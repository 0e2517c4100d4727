// The messages that wait, and what becomes of each.
use drawing::Out;
use machine::{Message, State};
use plan::table::Table;
use telling::put_letter;
use why::strays::{Fate, fate_of};

// What becomes of a message, in words. What nobody takes, or room is wanted for, is marked.
fn put_fate(out: &mut Out, fate: Fate) {
    match fate {
        Fate::Leaves => out.put(b"leaves by collect"),
        Fate::Untaken => put_marked(out, b"no receive of the plan takes it"),
        Fate::Later => put_marked(out, b"no order takes it now"),
        Fate::Held => put_marked(out, b"would start an order: held, since 16 orders are live"),
        Fate::Starts => out.put(b"starts an order"),
        Fate::Taken => out.put(b"an order takes it"),
    }
}

fn put_marked(out: &mut Out, words: &[u8]) {
    out.put_markup(b"<span class=\"bad\">");
    out.put(words);
    out.put_markup(b"</span>");
}

// The message at a place.
fn put_one(
    out: &mut Out,
    names: &[u8; 16896],
    table: &Table,
    activities: usize,
    place: usize,
    fate: Fate,
    m: Message,
) {
    out.put_markup(b"<tr><td>");
    out.put_number(place as u64);
    out.put_markup(b"</td><td>");
    put_letter(out, names, table, activities, m);
    out.put_markup(b"</td><td>");
    put_fate(out, fate);
    out.put_markup(b"</td></tr>\n");
}

fn put_lines(
    out: &mut Out,
    names: &[u8; 16896],
    table: &Table,
    flags: &[u8; 16],
    picks: &[usize; 256],
    activities: usize,
    state: State,
) {
    let letters = fit::letters::letters_of(state.messages, state.waiting);
    for (j, m) in state.messages.iter().enumerate().take(state.waiting) {
        let fate = fate_of(
            table,
            flags,
            picks,
            activities,
            state.orders,
            &letters,
            j,
            *m,
        );
        put_one(out, names, table, activities, j, fate, *m);
    }
}

// All of them, where one waits.
fn put_table(
    out: &mut Out,
    names: &[u8; 16896],
    table: &Table,
    flags: &[u8; 16],
    picks: &[usize; 256],
    activities: usize,
    state: State,
) {
    if state.waiting == 0 {
        out.put_markup(b"<p>No message waits.</p>\n");
    } else {
        out.put_markup(
            b"<div class=\"scroll\"><table>\n<thead><tr><th>Place</th><th>Message</th><th>What becomes of it</th></tr></thead>\n<tbody>\n",
        );
        put_lines(out, names, table, flags, picks, activities, state);
        out.put_markup(b"</tbody>\n</table></div>\n");
    }
}

pub(crate) fn put_messages(
    out: &mut Out,
    names: &[u8; 16896],
    table: &Table,
    flags: &[u8; 16],
    picks: &[usize; 256],
    activities: usize,
    state: State,
) {
    out.put_markup(b"<section id=\"messages\">\n<h2>Messages that wait</h2>\n");
    put_table(out, names, table, flags, picks, activities, state);
    out.put_markup(b"</section>\n");
}
