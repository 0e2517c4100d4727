// Reads the number of a fault part: one that a fault part may have, and that none before it in its scope has.
ghost use Rattle.std.specs.Prelude.{◌+◌, ◌<◌, ◌≤◌, set, not, ◌&&◌, ◌∷◌, ◌≡◌};
ghost use Rattle.plan.specs.Answers.{field_of};
ghost use Rattle.plan.specs.Fits.{NumberFits};
ghost use Rattle.plan.specs.Found.{among};
ghost use Rattle.plan.specs.Numbering.{backwards};
ghost use Rattle.plan.specs.Read.{namable, fault_number_in};

use super::Refusal;
use super::fields::number_at;
use numbers::Number;

// Whether a fault part may have this number.
#[tactic(auto, unfolding(crate::specs::Read::namable))]
fn is_namable(x: u32) -> bool
    ensures { result ≡ namable x }
{
    x <= 5 || 16 <= x && x <= 255
}

// The number at `at`, of the fault part behind those with the first k.
pub(crate) fn fault_number_at(
    s: &[u8],
    at: usize,
    numbers: [u32; 8],
    k: usize,
) -> Result<Number, Refusal>
    requires { k ≤ 8 }
    ensures is { result ≡ field_of (fault_number_in s.now (backwards k numbers) at) }
    ensures fits { NumberFits s.now at result }
{
    let read = number_at(s, at)?;
    if is_namable(read.value) && !numbers[..k].contains(&read.value) {
        return Ok(read);
    }
    Err(Refusal {
        number: 5,
        place: at,
    })
}

// The numbers with one more behind the first k.
pub(crate) fn with_number(numbers: [u32; 8], k: usize, x: u32) -> [u32; 8]
    requires { k < 8 }
    ensures is { result ≡ set numbers k x }
    ensures read { backwards (k + 1) result ≡ x ∷ backwards k numbers }
{
    let mut more = numbers;
    more[k] = x;
    more
}
