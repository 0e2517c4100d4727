// The numbers that a post or a run takes, and the partner to reply to behind those of a post.
use arrayvec::ArrayVec;
use commands::Trouble;
use text::{DecimalError, Word};

// The numbers of a line: as many as the longest, a run's, has.
pub type Numbers = ArrayVec<u32, 1001>;

// The number that stands at a place of a line, with the place after it; none at the end of the line.
fn next_number(line: &[u8], at: usize) -> Result<Option<(u32, usize)>, Trouble> {
    let w = text::word_at(line, at);
    match line.get(w.from..w.to) {
        Some(word) if !word.is_empty() => match text::decimal_of(word) {
            Ok(value) => Ok(Some((value, w.to))),
            Err(DecimalError::Large) => Err(Trouble::Large),
            Err(DecimalError::Bad) => Err(Trouble::Unnumbered),
        },
        _ => Ok(None),
    }
}

// The numbers of a line from a place on, fewer than `limit` of them.
pub fn numbers_of(line: &[u8], from: usize, limit: usize) -> Result<Numbers, Trouble> {
    let mut numbers = ArrayVec::new();
    let mut at = from;
    for _ in 0..limit {
        match next_number(line, at)? {
            None => return Ok(numbers),
            Some((value, to)) => {
                let _ = numbers.try_push(value);
                at = to;
            }
        }
    }
    Err(Trouble::Extra)
}

fn is_reply(line: &[u8], w: Word) -> bool {
    matches!(line.get(w.from..w.to), Some(word) if text::same(word, b"reply"))
}

// The word `reply` of a post, the words of which begin at a place; the empty word at the end of the line where there is none. It stands behind the partner
// and the operation, which may be called so themselves, and up to eight values.
pub fn reply_in(line: &[u8], from: usize) -> Word {
    let partner = text::word_at(line, from);
    let mut w = text::word_at(line, partner.to);
    for _ in 0..9 {
        w = text::word_at(line, w.to);
        if is_reply(line, w) {
            return w;
        }
    }
    Word {
        from: line.len(),
        to: line.len(),
    }
}

// A line up to a place.
pub fn before(line: &[u8], at: usize) -> &[u8] {
    line.get(..at).unwrap_or(line)
}

// Whether a word stands from a place on.
fn has_more(line: &[u8], at: usize) -> bool {
    !text::word_at(line, at).is_empty()
}

// The partner to reply to, behind the word `reply` of a line; 0 where it has no such word.
pub(crate) fn reply_of(line: &[u8], w: Word) -> Result<u32, Trouble> {
    if w.is_empty() {
        return Ok(0);
    }
    match next_number(line, w.to)? {
        None => Err(Trouble::Missing),
        Some((_, to)) if has_more(line, to) => Err(Trouble::Extra),
        Some((partner, _)) => Ok(partner),
    }
}

// The numbers after the first.
pub fn rest_of(numbers: &Numbers) -> ArrayVec<usize, 1000> {
    let mut rest = ArrayVec::new();
    for number in numbers.as_slice().iter().skip(1) {
        let _ = rest.try_push(*number as usize);
    }
    rest
}
