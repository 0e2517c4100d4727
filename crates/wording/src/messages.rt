// Messages: those that wait, one that is collected, one that is posted.
use drawing::{Out, put_partner};
use machine::{Message, State};

fn put_value(out: &mut Out, front: &[u8], value: u32) {
    out.put(front);
    out.put_number(value as u64);
}

// The first values of a message, each after what stands in front of it.
fn put_values(out: &mut Out, values: &[u32; 4], count: u32, front: &[u8]) {
    for value in values.iter().take(count as usize) {
        put_value(out, front, *value);
    }
}

// Partner, operation, count, values and the partner to reply to, a blank in front of each.
pub fn put_message(out: &mut Out, m: Message) {
    let values = m.values;
    out.put_next(m.partner as u64);
    out.put_next(m.operation as u64);
    out.put_next(m.count as u64);
    put_values(out, &values, m.count, b" ");
    out.put_next(m.reply as u64);
}

// Whom to reply to, where the receive that takes the message stores it.
fn put_reply(out: &mut Out, names: &[u8; 16896], storing: bool, reply: u32) {
    if storing {
        out.put(b"; reply to ");
        put_partner(out, names, reply);
    }
}

// A message in words. Its partner and operation are those of the receive that takes it.
fn put_in_words(out: &mut Out, names: &[u8; 16896], place: usize, storing: bool, m: Message) {
    let values = m.values;
    out.put(b"; takes message");
    out.put_next(place as u64);
    out.put(b", with");
    put_values(out, &values, m.count, b" ");
    put_reply(out, names, storing, m.reply);
}

// The message at a place in words, and whether whom to reply to is stored.
pub(crate) fn put_taken(
    out: &mut Out,
    names: &[u8; 16896],
    messages: [Message; 64],
    place: usize,
    storing: bool,
) {
    if place < 64 {
        let m = messages[place];
        put_in_words(out, names, place, storing, m);
    }
}

// A message that waits, after those that came before it.
fn put_another(out: &mut Out, i: usize, m: Message) {
    if i != 0 {
        out.put(b" |");
    }
    put_message(out, m);
}

fn put_messages(out: &mut Out, messages: [Message; 64], waiting: usize) {
    for (i, m) in messages.iter().enumerate().take(waiting) {
        put_another(out, i, *m);
    }
}

// The messages that wait, oldest first.
pub fn put_waiting(out: &mut Out, state: State) {
    let messages = state.messages;
    out.put(b"waiting");
    put_messages(out, messages, state.waiting);
    out.put_byte(b'\n');
}
