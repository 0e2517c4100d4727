// Which earlier line a receive or an arm disagrees with, where a text earns 21: document 02, request 8.
ghost use Rattle.std.specs.Prelude.{◌≤◌};

use super::writing::line_after;
use drawing::Out;
use plan::kind;

// What a receive or an arm asks for; a count of 0 in a row that only looks like one.
#[derive(Clone, Copy, PartialEq, Eq)]
struct Asked {
    partner: u32,
    operation: u32,
    count: u32,
}

// Number `place` of a row; 0 beyond the table.
// Stays: (a) one array for all rows, 20 numbers each, since `sheet::read` and `writer::write` have rows so.
pub(crate) fn cell(rows: &[u32; 87100], row: usize, place: usize) -> u32 {
    if row < 4355 && place < 20 {
        rows[row * 20 + place]
    } else {
        0
    }
}

// The line in which a row stands.
pub(crate) fn line_of(lines: &[u32; 4355], row: usize) -> u32 {
    lines.get(row).copied().unwrap_or(0)
}

// The place where a line of the text begins. Lines are counted from 1.
fn start_of(text: &[u8], line: u32) -> usize {
    let mut n: u32 = 1;
    for (p, b) in text.iter().enumerate() {
        if line <= n {
            return p;
        }
        if *b == b'\n' {
            n = n.saturating_add(1);
        }
    }
    text.len()
}

// Whether a byte may stand before the first word: a blank, or a digit of the number at the front of a line.
fn is_front(b: u8) -> bool {
    b == b' ' || b.is_ascii_digit()
}

// Whether a line is an arm's: of the words that a line of a drawing begins with, `arm` alone begins with an a.
pub(crate) fn is_arm(text: &[u8], line: u32) -> bool {
    let start = start_of(text, line);
    text.iter().skip(start).find(|b| !is_front(**b)) == Some(&b'a')
}

// The numbers of a row from a place on.
fn taken(rows: &[u32; 87100], row: usize, from: usize) -> Asked
    requires { from ≤ 2 }
{
    Asked {
        partner: cell(rows, row, from),
        operation: cell(rows, row, from + 1),
        count: cell(rows, row, from + 2),
    }
}

// Whether a row stands in the line of the row before it: an expression's does. (The head stands in the line of row 1.)
fn is_within(lines: &[u32; 4355], row: usize) -> bool {
    2 <= row && line_of(lines, row) == line_of(lines, row - 1)
}

// What a row asks for, where it does. Rows do not say what they are: an arm's begins with its partner, a receive's with its code; the text tells them apart.
fn asked_in(text: &[u8], rows: &[u32; 87100], lines: &[u32; 4355], row: usize) -> Option<Asked> {
    if is_within(lines, row) {
        return None;
    }
    if is_arm(text, line_of(lines, row)) {
        return Some(taken(rows, row, 1));
    }
    match cell(rows, row, 1) {
        kind::RECEIVE | kind::ASKING_RECEIVE => Some(taken(rows, row, 2)),
        _ => None,
    }
}

fn disagrees(a: Asked, b: Asked) -> bool {
    a.count != 0 && a.partner == b.partner && a.operation == b.operation && a.count != b.count
}

// The first row before this one that disagrees with it, and what it asks for.
fn earlier(
    text: &[u8],
    rows: &[u32; 87100],
    lines: &[u32; 4355],
    row: usize,
    here: Asked,
) -> Option<(usize, Asked)> {
    for k in 1..row {
        match asked_in(text, rows, lines, k) {
            Some(there) if disagrees(there, here) => return Some((k, there)),
            _ => {}
        }
    }
    None
}

fn put_counts(out: &mut Out, line: u64, here: u32, other: u64, there: u32) {
    out.put(b"write 21");
    out.put_next(line);
    out.put(b" - takes ");
    out.put_number(u64::from(here));
    out.put(b", but line ");
    out.put_number(other);
    out.put(b" takes ");
    out.put_number(u64::from(there));
    out.put(b" for the same partner and operation\n");
}

// The answer to a text whose row disagrees with an earlier one: both lines, and both counts.
pub(crate) fn put_disagreeing(
    text: &[u8],
    number: u64,
    rows: &[u32; 87100],
    lines: &[u32; 4355],
    row: usize,
    out: &mut Out,
) {
    let here = asked_in(text, rows, lines, row).unwrap_or(Asked {
        partner: 0,
        operation: 0,
        count: 0,
    });
    let (k, there) = earlier(text, rows, lines, row, here).unwrap_or((row, here));
    put_counts(
        out,
        line_after(number, u64::from(line_of(lines, row))),
        here.count,
        line_after(number, u64::from(line_of(lines, k))),
        there.count,
    );
}
