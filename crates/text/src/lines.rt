// A line as it is gathered, byte by byte, and as it counts once it has ended.
ghost use Rattle.std.specs.Prelude.{◌+◌, min, ◌≡◌};
ghost use Rattle.text.specs.Lines.{kept, line_of};
ghost use Rattle.text.specs.Lines.{bare as Lines·bare};

// One more byte of a line of which `length` bytes are kept. There is room for 16,000 characters, a carriage return and one more, so that a
// line that is too long is known by what is kept of it.
// Stays: (a) an array with a length beside it, which the clauses `value` and `line_after` name; and this crate allocates nothing.
#[tactic(auto, unfolding(crate::specs::Lines::kept))]
pub fn keep(line: &mut [u8; 16002], length: usize, b: u8) -> usize
    ensures value { result ≡ min (length + 1) 16002 }
    ensures line_after { line.new ≡ kept line.old length b }
{
    if length < 16002 {
        line[length] = b;
        length + 1
    } else {
        16002
    }
}

// How many characters a line without its line feed has: one carriage return at its end counts as a part of the line end.
#[tactic(auto, unfolding(crate::specs::Lines::bare))]
fn bare(line: &[u8]) -> usize
    ensures { result ≡ Lines·bare line.now }
{
    match line {
        [text @ .., b'\r'] => text.len(),
        _ => line.len(),
    }
}

// How many characters of a line count: none of them where it has more than 16,000.
#[tactic(auto, unfolding(crate::specs::Lines::line_of))]
pub fn line_of(line: &[u8]) -> Option<usize>
    ensures { result ≡ line_of line.now }
{
    let length = bare(line);
    if 16000 < length { None } else { Some(length) }
}
