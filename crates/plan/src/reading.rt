// The reading head: it holds the lent bytes and a place in them. Its functions are thin and proved by hand; `read`, whose parameters are a plain
// slice and a place, serves every reader above.
ghost use Rattle.std.specs.Prelude.{◌≡◌};
ghost use Rattle.numbers.specs.Number.{number_at};

use super::Head;
use numbers::{Number, Trouble};

// The head at a place.
fn placed<'a>(bytes: &'a [u8], place: usize) -> Head<'a>
    ensures { (result.bytes ≡ bytes.entry) × (result.place ≡ place) }
{
    Head { bytes, place }
}

// The number at the head.
fn number<'a>(head: Head<'a>) -> Result<Number, Trouble>
    ensures { result ≡ number_at head.entry.bytes.now head.entry.place }
{
    numbers::read(head.bytes, head.place)
}

// The number at a place.
pub(crate) fn read(s: &[u8], at: usize) -> Result<Number, Trouble>
    ensures { result ≡ number_at s.now at }
{
    number(placed(s, at))
}
