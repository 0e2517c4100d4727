// Words: what stands between blanks.
ghost use Rattle.std.specs.Prelude.{◌≤◌, length, ◌≡◌};
ghost use Rattle.text.specs.Words.{blank, solid, run, word_at, same_text};

use super::Word;

// Whether a byte is a blank: a space or a tab.
fn is_blank(b: u8) -> bool
    ensures { result ≡ blank b }
{
    b == b' ' || b == b'\t'
}

// How many blanks a text begins with.
fn blanks(s: &[u8]) -> usize
    ensures { (result ≡ run blank s.now) × (result ≤ length s.now) }
{
    s.iter().take_while(|b| is_blank(**b)).count()
}

// How many bytes that are no blanks it begins with.
fn solids(s: &[u8]) -> usize
    ensures { (result ≡ run solid s.now) × (result ≤ length s.now) }
{
    s.iter().take_while(|b| !is_blank(**b)).count()
}

// The first word from the place `at` on, or from the end where `at` lies behind it.
#[tactic(auto, unfolding(crate::specs::Words::word_at))]
pub fn word_at(s: &[u8], at: usize) -> Word
    ensures is { result ≡ word_at s.now at }
    ensures inside { (result.from ≤ result.to) × (result.to ≤ length s.now) }
{
    let start = at.min(s.len());
    let from = start + blanks(&s[start..]);
    let to = from + solids(&s[from..]);
    Word { from, to }
}

// Whether two texts are the same.
pub fn same(a: &[u8], b: &[u8]) -> bool
    ensures { result ≡ same_text a.now b.now }
{
    a == b
}
