// The name of a file behind a command, which stands in quotes where it has blanks.
use super::{has_more, one_word, part};
use commands::Trouble;
use text::word_at;

// The place after a byte of a line. (No line has as many.)
fn after(at: usize) -> usize {
    if at < 20000 { at + 1 } else { at }
}

// A name in quotes, the first of which stands at `at`.
fn quoted(line: &[u8], at: usize) -> Result<&[u8], Trouble> {
    let from = after(at);
    let rest = part(line, from, line.len());
    let length = rest
        .iter()
        .position(|b| *b == b'"')
        .ok_or(Trouble::Missing)?;
    if has_more(line, after(from.saturating_add(length))) {
        Err(Trouble::Extra)
    } else if length == 0 {
        Err(Trouble::Missing)
    } else {
        Ok(part(rest, 0, length))
    }
}

pub(crate) fn name_of(line: &[u8], at: usize) -> Result<&[u8], Trouble> {
    let w = word_at(line, at);
    if w.from < line.len() && line[w.from] == b'"' {
        quoted(line, w.from)
    } else {
        one_word(line, at)
    }
}
