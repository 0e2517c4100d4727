// A plan as text for callers in other languages: the crate sheet makes rows of it, the crate writer bytes; and back, by the crate lettering. The crate
// boundary_text_c has its exports for C.
#![tactic(auto)]

use plan::table::{LENGTH, Table};
use writer::Answer;

// A number and a line.
fn pair_of(number: u64, line: u64) -> u64 {
    number % 65536 * 4294967296 + line % 4294967296
}

fn line_of(lines: &[u32; 4355], row: usize) -> u64 {
    if row < 4355 { u64::from(lines[row]) } else { 0 }
}

// The plan of the first `length` numbers.
fn answer_of(rows: &[u32], length: usize, plan: &mut [u8]) -> Answer {
    if length <= rows.len() {
        writer::write(&rows[..length], plan)
    } else {
        Err(plan::Refusal {
            number: 2,
            place: 0,
        })
    }
}

fn written(rows: &[u32; 87100], length: usize, lines: &[u32; 4355], plan: &mut [u8]) -> u64 {
    match answer_of(rows, length, plan) {
        Ok(length) => (length as u64) % 4294967296,
        Err(plan::Refusal { number, place }) => pair_of(u64::from(number), line_of(lines, place)),
    }
}

// Writes the plan that a text says into `plan`: how many bytes it has; or the refusal's number times 2^32, and the line in trouble. The reasons of the
// crate sheet are told as 32 and more.
pub fn moonhalyard_text(text: &[u8], plan: &mut [u8]) -> u64 {
    let mut rows = [0u32; 87100];
    let mut lines = [0u32; 4355];
    match sheet::read(text, &mut rows, &mut lines) {
        Ok(length) => written(&rows, length, &lines, plan),
        Err(wrong) => pair_of(u64::from(wrong.reason.number()) + 32, u64::from(wrong.line)),
    }
}

// The first `length` bytes of a text, into the front of `text`; where there is no room for them, 18 and how many they are, and nothing is written.
fn handed(said: &[u8; 65536], length: usize, text: &mut [u8]) -> u64 {
    if text.len() < length || said.len() < length {
        return pair_of(18, length as u64);
    }
    text[..length].copy_from_slice(&said[..length]);
    (length as u64) % 4294967296
}

fn drawn(
    table: &Table,
    correlation: &[u8; 16],
    variables: u32,
    activities: usize,
    text: &mut [u8],
) -> u64 {
    let mut said = [0u8; 65536];
    let length = lettering::put_plan(&mut said, table, correlation, variables, activities);
    handed(&said, length, text)
}

// Writes the text of a plan into `text`: how long it is; or the refusal's number times 2^32, and its place, or, for 18, how long the text is.
pub fn moonhalyard_draw(s: &[u8], text: &mut [u8]) -> u64 {
    let mut table = [0u32; LENGTH];
    let mut correlation = [0u8; 16];
    match plan::accept_over(s, &mut table, &mut correlation) {
        Err(plan::Refusal { number, place }) => pair_of(u64::from(number), place as u64),
        Ok(accepted) => drawn(
            &table,
            &correlation,
            accepted.variables,
            accepted.activities,
            text,
        ),
    }
}
