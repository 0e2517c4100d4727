// The characters, words and marks of a line. A place is an index into the text.
ghost use Rattle.std.specs.Prelude.{◌-◌, ◌≤◌, ◌<◌, IfSome, length};
ghost use Rattle.std.specs.Iterator.{at_most};

// A word of the text: from where it begins to before where it ends.
#[derive(Clone, Copy)]
pub struct Span {
    pub from: usize,
    pub to: usize,
}

impl Span {
    // How many characters it has.
    pub fn length(self) -> usize {
        self.to.saturating_sub(self.from)
    }

    pub fn is_empty(self) -> bool {
        self.to <= self.from
    }

    // Its characters.
    pub fn of(self, s: &[u8]) -> &[u8] {
        s.get(self.from..self.to).unwrap_or(&[])
    }
}

// The character at a place; a line feed beyond the text.
pub(crate) fn byte_at(s: &[u8], at: usize) -> u8 {
    s.get(at).copied().unwrap_or(b'\n')
}

// Whether a name may begin with it: a letter or an underscore.
fn is_letter(b: u8) -> bool {
    b == b'_' || b.is_ascii_alphabetic()
}

fn is_inner(b: u8) -> bool {
    is_letter(b) || b.is_ascii_digit()
}

// The place or row after n.
// Stays: (a) no library method ends at 4,294,967,295, and what a text gives is promised to stay, however long it is.
pub fn more(n: usize) -> usize {
    if n < 4294967295 { n + 1 } else { n }
}

// The first place from `at` on whose character is one of these.
fn first<F: Fn(u8) -> bool>(s: &[u8], at: usize, is_it: F) -> Option<usize>
    requires { F.IsAlwaysCallable is_it }
    ensures { IfSome result (λ p. (at ≤ p) × (p < length s.now)) }
{
    for p in at..s.len() {
        if is_it(s[p]) {
            return Some(p);
        }
    }
    None
}

// The lines of a part of the text: the place of each, in turn.
#[derive(Drop)]
pub struct Lines<'a> {
    bytes: &'a [u8],
    at: usize,
    stop: usize,
}

impl<'a> Lines<'a> {
    // Those from the one at `at` to before `stop`.
    pub fn between(bytes: &'a [u8], at: usize, stop: usize) -> Self {
        Lines { bytes, at, stop }
    }

    // Those of the whole text.
    pub fn of(bytes: &'a [u8]) -> Self {
        Lines::between(bytes, 0, bytes.len())
    }
}

impl Iterator for Lines<'_> {
    type Item = usize;

    ghost remaining = { λ s. at_most (s.stop - s.at) };

    fn next(&mut self) -> Option<usize> {
        let at = self.at;
        if self.stop <= at {
            return None;
        }
        self.at = match first(self.bytes, at, |b| b == b'\n') {
            Some(end) if end < self.stop => end + 1,
            _ => self.stop,
        };
        Some(at)
    }
}

// The first place from `at` on that is no space.
pub fn past_blanks(s: &[u8], at: usize) -> usize
    ensures { at ≤ result }
{
    first(s, at, |b| b != b' ').unwrap_or(at.max(s.len()))
}

// The place after the letters and digits from `at` on.
pub fn word_end(s: &[u8], at: usize) -> usize
    ensures { at ≤ result }
{
    first(s, at, |b| !is_inner(b)).unwrap_or(at.max(s.len()))
}

// The next word of the line, which is empty where none is next.
pub fn word_at(s: &[u8], at: usize) -> Span
    ensures { at ≤ result.to }
{
    let from = past_blanks(s, at);
    Span {
        from,
        to: word_end(s, from),
    }
}

// The place of the first tab in the line, before its comment.
pub fn tab_in(s: &[u8], at: usize) -> Option<usize> {
    first(s, at, |b| matches!(b, b'\t' | b'\n' | b'#')).filter(|p| byte_at(s, *p) == b'\t')
}

// Whether nothing but blanks and a comment is left of the line.
pub fn is_over(s: &[u8], at: usize) -> bool {
    matches!(byte_at(s, past_blanks(s, at)), b'\n' | b'#')
}

// The place after this word, where it is the next of the line.
pub fn after_word(s: &[u8], at: usize, word: &[u8]) -> Option<usize>
    ensures { IfSome result (λ p. at ≤ p) }
{
    let next = word_at(s, at);
    (next.of(s) == word).then_some(next.to)
}

// The place after these two words, where they are the next of the line.
pub fn after_words(s: &[u8], at: usize, word: &[u8], other: &[u8]) -> Option<usize> {
    let p = after_word(s, at, word)?;
    after_word(s, p, other)
}

// The place after this mark, where it is next in the line.
pub fn after_mark(s: &[u8], at: usize, mark: u8) -> Option<usize>
    ensures { IfSome result (λ p. (at < p) × (p ≤ length s.now)) }
{
    let p = past_blanks(s, at);
    if p < s.len() && s[p] == mark {
        Some(p + 1)
    } else {
        None
    }
}

// Whether the word at `from` starts as a name does.
pub fn is_name(s: &[u8], from: usize) -> bool {
    is_letter(byte_at(s, from))
}

// The number that digits spell, where they spell one up to 4,294,967,295.
pub fn decimal(digits: &[u8]) -> Option<u32> {
    if digits.is_empty() {
        return None;
    }
    let mut value: u32 = 0;
    for b in digits {
        let digit = char::from(*b).to_digit(10)?;
        value = value.checked_mul(10)?.checked_add(digit)?;
    }
    Some(value)
}
