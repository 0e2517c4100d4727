// Checks the rows of the numbers that stand between the parts of a scope: the count of its fault parts by number, and the number of each.
ghost use Rattle.std.specs.Prelude.{◌+◌, ◌<◌, ◌≤◌, IfOk, not, ◌&&◌, [], ◌∷◌, ◌≡◌};
ghost use Rattle.plan.specs.Found.{among};
ghost use Rattle.plan.specs.Numbering.{backwards};
ghost use Rattle.plan.specs.Read.{namable};
ghost use Rattle.writer.specs.Reading.{count_at, fault_number_at};
ghost use Rattle.writer.specs.Written.{field_for};

use super::cells::{is_shaped, row_at};
use super::owns::from_1;
use super::{Field, Known};
use plan::Refusal;

// Whether a fault part may have this number.
#[tactic(auto, using(crate::proofs::Told::cases), unfolding(plan::specs::Read::namable))]
fn is_namable(x: usize) -> bool
    ensures { result ≡ namable x }
{
    matches!(x, 0..=5 | 16..=255)
}

impl Known {
    // No number is read yet.
    #[tactic(auto, unfolding(plan::specs::Numbering::backwards))]
    pub(crate) fn none() -> Known
        ensures empty { result.count ≡ 0 }
        ensures none { backwards result.count result.numbers ≡ [] }
    {
        Known {
            numbers: [0; 8],
            count: 0,
        }
    }

    // Whether a number is among these.
    fn has(self, x: usize) -> bool
        ensures { result ≡ among x (backwards self.count self.numbers) }
    {
        self.numbers[..self.count].contains(&x)
    }

    // These, and one more.
    pub(crate) fn and(mut self, x: usize) -> Known
        requires { self.count < 8 }
        ensures more { result.count ≡ self.count + 1 }
        ensures last { backwards result.count result.numbers ≡ x ∷ backwards self.count self.numbers }
    {
        self.numbers[self.count] = x;
        self.count += 1;
        self
    }

    // Whether a fault part may have this number behind those that are known.
    fn may_have(self, x: usize) -> bool
        ensures { result ≡ (namable x && not (among x (backwards self.count self.numbers))) }
    {
        is_namable(x) && !self.has(x)
    }
}

// The count of fault parts by number, in row r.
#[tactic(auto, using(crate::proofs::Told::cases), unfolding(crate::specs::Reading::count_at, crate::specs::Written::result_for))]
pub(crate) fn count_at(t: &[u32], r: usize) -> Result<Field, Refusal>
    ensures is { result ≡ field_for (count_at t.now r) }
    ensures fits { IfOk result (λ count. count.value ≤ 8) }
{
    let count = row_at(t, r)?;
    if from_1(8, count.value) && is_shaped(t, r, 1) {
        return Ok(count);
    }
    Err(Refusal {
        number: 5,
        place: r,
    })
}

// The number in row r, of the fault part behind those that are known.
#[tactic(auto, using(crate::proofs::Told::cases), unfolding(crate::specs::Reading::fault_number_at, crate::specs::Written::result_for))]
pub(crate) fn fault_number_at(t: &[u32], r: usize, known: Known) -> Result<Field, Refusal>
    ensures { result ≡ field_for (fault_number_at t.now (backwards known.count known.numbers) r) }
{
    let number = row_at(t, r)?;
    if known.may_have(number.value) && is_shaped(t, r, 1) {
        return Ok(number);
    }
    Err(Refusal {
        number: 5,
        place: r,
    })
}
