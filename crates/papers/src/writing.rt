// A plan as text: the crate sheet makes rows of it, the crate writer bytes. And the names that it declares, which stay as long as its plan does.
use super::brakes::{braked, is_braked};
use super::disagreeing::{line_of, put_disagreeing};
use super::files::copied;
use super::places::put_place;
use super::plans::fresh;
use super::reasons::put_why;
use super::rules::put_rule;
use super::{Clerk, Said, first};
use drawing::Out;
use machine::State;
use plan::Refusal;
use sheet::Reason;

// Whether two plans are the same, of this length.
fn is_same(a: &[u8], b: &[u8], length: usize) -> bool {
    a.iter().zip(b).take(length).all(|(x, y)| *x == *y)
}

// Whether the last plan, which is the first `length` bytes, is still that of the state before it.
fn is_kept(before: State, bytes: &[u8; 8000], length: usize) -> bool {
    before.length == length && is_same(&before.plan, bytes, length)
}

// The names are those of the plan of the state before, and of no other.
pub(crate) fn forget(before: State, bytes: &[u8; 8000], length: usize, names: &mut [u8; 16896]) {
    if !is_kept(before, bytes, length) {
        names.fill(0);
    }
}

// The number of a line of the text, where the write is line `number`.
pub(crate) fn line_after(number: u64, line: u64) -> u64 {
    if number < 9223372036854775808 && line < 4294967296 {
        number + line
    } else {
        number
    }
}

// What is wrong with a line of the text, and, where it is to be pointed at, by which word.
fn put_wrong(out: &mut Out, line: u64, reason: Reason, text: &[u8], place: usize, pointed: bool) {
    out.put(b"error");
    out.put_next(line);
    out.put_byte(b' ');
    put_why(out, reason);
    if pointed {
        put_place(out, text, place);
    }
    out.put_byte(b'\n');
}

fn put_written(out: &mut Out, plan: &[u8]) {
    out.put(b"write 0 ");
    out.put_hex(plan);
    out.put_byte(b'\n');
}

// The plan that runs, by other names: nothing but these changes.
fn renamed(clerk: &mut Clerk, text: &[u8], plan: &[u8]) {
    sheet::names_of(text, &mut clerk.desk.names);
    put_written(&mut clerk.out, plan);
    clerk.desk.said = Said::Renamed;
}

// Whether a plan that was written runs already.
fn is_running(state: State, plan: &[u8; 4096], length: usize) -> bool {
    state.length == length && is_same(&state.plan, plan, length)
}

// A plan that was written, where the desk speaks to a person: what runs is not dropped by the way.
fn written_with_care(
    clerk: &mut Clerk,
    text: &[u8],
    plan: &[u8; 4096],
    length: usize,
    number: u64,
) {
    if is_running(clerk.desk.state, plan, length) {
        renamed(clerk, text, first(plan, length));
    } else if is_braked(&clerk.desk) {
        braked(clerk, number, b"write");
    } else {
        written(clerk, text, plan, length);
    }
}

// A plan that was written is the last plan from then on, with a fresh state.
fn written(clerk: &mut Clerk, text: &[u8], plan: &[u8; 4096], length: usize) {
    copied(plan, &mut clerk.desk.bytes);
    sheet::names_of(text, &mut clerk.desk.names);
    put_written(&mut clerk.out, first(plan, length));
    fresh(clerk, length);
}

// A text that is refused, and, for a person, by which rule where that is not told by the number.
fn ruled(clerk: &mut Clerk, text: &[u8], rows: &[u32; 87100], lines: &[u32; 4355], row: usize) {
    if clerk.desk.spoken && clerk.desk.said == Said::Refused(5) {
        clerk.out.go_on();
        put_rule(&mut clerk.out, text, rows, lines, row);
        clerk.out.put_byte(b'\n');
    }
}

// The rows of a text are written.
fn write_rows(
    clerk: &mut Clerk,
    text: &[u8],
    number: u64,
    rows: &[u32; 87100],
    length: usize,
    lines: &[u32; 4355],
) {
    let mut plan = [0u8; 4096];
    let rows_read = rows.get(..length).unwrap_or(rows);
    match writer::write(rows_read, &mut plan) {
        Ok(length) => {
            if clerk.desk.spoken {
                written_with_care(clerk, text, &plan, length, number);
            } else {
                written(clerk, text, &plan, length);
            }
        }
        Err(
            Refusal {
                number: refusal,
                place,
            },
        ) => {
            clerk.desk.answer(refusal);
            if refusal == 21 {
                put_disagreeing(text, number, rows, lines, place, &mut clerk.out);
            } else {
                let line = line_after(number, u64::from(line_of(lines, place)));
                clerk.out.put_pair(b"write", u64::from(refusal), line);
                ruled(clerk, text, rows, lines, place);
            }
        }
    }
}

// The plan that a text says becomes the last plan, with a fresh state; where it says none, what is wrong is told, and nothing changes. The text
// begins in the line after `number`.
pub fn write(clerk: &mut Clerk, text: &[u8], number: u64) {
    let mut rows = [0u32; 87100];
    let mut lines = [0u32; 4355];
    match sheet::read(text, &mut rows, &mut lines) {
        Ok(length) => write_rows(clerk, text, number, &rows, length, &lines),
        Err(wrong) => {
            put_wrong(
                &mut clerk.out,
                line_after(number, u64::from(wrong.line)),
                wrong.reason,
                text,
                wrong.place,
                clerk.desk.spoken,
            );
            clerk.desk.fail();
        }
    }
}
