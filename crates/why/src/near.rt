// The messages that wait beside what a receive asks for: those that fit, and those that fit but for one value.
use drawing::{Out, entry, put_variable};
use machine::Message;
use plan::table::{COUNT, OPERATION, PARTNER, Table, VARIABLES};

// How many values are not those asked for, and the place of the last such.
#[derive(Clone, Copy)]
struct Near {
    many: u32,
    place: usize,
}

// How near a message comes to what is asked: one more than each value, or 0 where any will do; places beyond its count are not asked for.
fn near_of(asked: &[u64; 4], m: Message) -> Near {
    let mut near = Near { many: 0, place: 0 };
    let many = (m.count as usize).max(1);
    for (i, (wanted, value)) in asked.iter().zip(&m.values).enumerate().take(many) {
        if *wanted != 0 && *wanted != u64::from(*value) + 1 {
            near = Near {
                many: near.many.saturating_add(1),
                place: i,
            };
        }
    }
    near
}

// Whether a message is for the receive or arm in row n.
fn is_for(table: &Table, n: usize, m: Message) -> bool {
    m.partner == entry(table, n, PARTNER)
        && m.operation == entry(table, n, OPERATION)
        && m.count == entry(table, n, COUNT)
}

fn put_number_of(out: &mut Out, j: usize) {
    out.put(b"    message");
    out.put_next(j as u64);
}

// The one value that is another.
fn put_miss(
    out: &mut Out,
    names: &[u8; 16896],
    table: &Table,
    n: usize,
    asked: &[u64; 4],
    values: &[u32; 4],
    place: usize,
) {
    if place < 4 {
        out.put(b" nearly fits: ");
        put_variable(out, names, entry(table, n, VARIABLES + place));
        out.put_next(u64::from(values[place]));
        out.put(b", not");
        out.put_next(asked[place].saturating_sub(1));
        out.put_byte(b'\n');
    } else {
        out.put_byte(b'\n');
    }
}

// Message j beside the receive or arm in row n.
fn put_one(
    out: &mut Out,
    names: &[u8; 16896],
    table: &Table,
    n: usize,
    asked: &[u64; 4],
    j: usize,
    m: Message,
) {
    if is_for(table, n, m) {
        let values = m.values;
        let near = near_of(asked, m);
        if near.many <= 1 {
            put_number_of(out, j);
            if near.many == 0 {
                out.put(b" fits\n");
            } else {
                put_miss(out, names, table, n, asked, &values, near.place);
            }
        }
    }
}

// All of them beside row n.
pub(crate) fn put_near(
    out: &mut Out,
    names: &[u8; 16896],
    table: &Table,
    n: usize,
    asked: &[u64; 4],
    messages: [Message; 64],
    waiting: usize,
) {
    for (j, m) in messages.iter().enumerate().take(waiting) {
        put_one(out, names, table, n, asked, j, *m);
    }
}
