// Where in a line of a text something is wrong: the word that stands there, and its column, counted from 1.
use drawing::Out;
use sheet::{past_blanks, word_end};

fn byte_at(text: &[u8], at: usize) -> u8 {
    text.get(at).copied().unwrap_or(b'\n')
}

// The column of a place: one more than what stands before it in its line.
fn column_of(text: &[u8], place: usize) -> u64 {
    let mut column: u64 = 1;
    for b in text.iter().take(place) {
        column = match *b {
            b'\n' => 1,
            _ => column.saturating_add(1),
        };
    }
    column
}

// What stands at a place: a word, or a mark.
fn put_quoted(out: &mut Out, text: &[u8], from: usize) {
    let to = word_end(text, from);
    out.put(b" - '");
    match text.get(from..to) {
        Some(word) if from < to => out.put(word),
        _ => out.put_byte(byte_at(text, from)),
    }
    out.put(b"'");
}

fn put_found(out: &mut Out, text: &[u8], from: usize) {
    match byte_at(text, from) {
        b'\t' => out.put(b" - a tab"),
        b'#' => out.put(b" - the end of the line"),
        b'!'..=b'~' => put_quoted(out, text, from),
        _ => out.put(b" - the end of the line"),
    }
}

// ` - 'WORD', column COLUMN`; nothing where the place is not in the text.
pub(crate) fn put_place(out: &mut Out, text: &[u8], place: usize) {
    if place < text.len() {
        let from = past_blanks(text, place);
        put_found(out, text, from);
        out.put(b", column");
        out.put_next(column_of(text, from));
    }
}
