// The front of a line of the drawing: a number and the name of a part, which may each be left out. And the scopes that have names.
use super::marks::{
    Lines, Span, after_mark, after_word, after_words, decimal, past_blanks, word_at,
};

// The parts that have names: those of the root, of a scope and of a choose.
#[derive(Clone, Copy, PartialEq, Eq)]
pub enum Part {
    RootBody,
    RootFault,
    Body,
    Fault,
    Undo,
    Then,
    Else,
}

const PARTS: [Part; 7] = [
    Part::RootBody,
    Part::RootFault,
    Part::Body,
    Part::Fault,
    Part::Undo,
    Part::Then,
    Part::Else,
];

// The place after a number at the front of a line, which may be left out.
pub fn past_number(s: &[u8], at: usize) -> usize {
    let word = word_at(s, at);
    match decimal(word.of(s)) {
        Some(_) => past_blanks(s, word.to),
        None => word.from,
    }
}

// The place after the name of this part.
pub fn after_part(s: &[u8], at: usize, part: Part) -> Option<usize> {
    let p = match part {
        Part::RootBody => after_words(s, at, b"root", b"body")?,
        Part::RootFault => after_words(s, after_word(s, at, b"root")?, b"fault", b"part")?,
        Part::Body => after_word(s, at, b"body")?,
        Part::Fault => after_words(s, at, b"fault", b"part")?,
        Part::Undo => after_words(s, at, b"undo", b"part")?,
        Part::Then => after_word(s, at, b"then")?,
        Part::Else => after_word(s, at, b"else")?,
    };
    after_mark(s, p, b':')
}

// The word that says the number of a fault part, as in `fault part 17:`, and the place after the name of the part.
pub fn numbered_part(s: &[u8], at: usize) -> Option<(Span, usize)> {
    let number = word_at(s, after_words(s, at, b"fault", b"part")?);
    if number.is_empty() {
        return None;
    }
    Some((number, after_mark(s, number.to, b':')?))
}

// Whether a line starts with a word that names a part.
pub fn is_part(s: &[u8], at: usize) -> bool {
    matches!(
        word_at(s, at).of(s),
        b"root" | b"body" | b"fault" | b"undo" | b"then" | b"else"
    )
}

// The place after the name of any part, where the line has one.
fn past_part(s: &[u8], at: usize) -> usize {
    if let Some((_, p)) = numbered_part(s, at) {
        return p;
    }
    PARTS
        .iter()
        .find_map(|part| after_part(s, at, *part))
        .unwrap_or(at)
}

// The name of the scope whose line this is, empty where it has none.
pub(crate) fn scope_in(s: &[u8], line: usize) -> Option<Span> {
    let p = after_word(s, past_part(s, past_number(s, line)), b"scope")?;
    Some(word_at(s, p))
}

// Whether a scope in the lines from `first` on, before the line of a word, has this name.
pub fn is_scope_named(s: &[u8], first: usize, word: Span) -> bool {
    Lines::between(s, first, word.from)
        .filter_map(|line| scope_in(s, line))
        .any(|name| name.from != word.from && name.of(s) == word.of(s))
}
