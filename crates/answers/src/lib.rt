// Answers as numbers, for callers in other languages: a step as one number, and numbers one after the other in a lent buffer.
#![tactic(auto)]

ghost use Rattle.std.specs.Prelude.{◌≡◌, set};
ghost use Rattle.answers.specs.Numbering.{step_number};
ghost use Rattle.machine.specs.Calls.{end_number};

use machine::Step;
use order::End;

// The number of an end.
// Stays: (d) the numbers are document 01's for callers in C, and say so here; a cast of the enum would leave them to the order of its variants.
#[tactic(auto, unfolding(machine::specs::Calls::end_number))]
fn end_of(end: End) -> u64
    ensures { result ≡ end_number end }
{
    match end {
        End::None => 0,
        End::Well => 1,
        End::Handled => 2,
        End::Failed => 3,
        End::Left => 4,
    }
}

// A step as one number.
#[tactic(auto, unfolding(crate::specs::Numbering::step_number))]
pub fn step_number(x: Step) -> u64
    ensures { result ≡ step_number x }
{
    u64::from(x.fault) * 1099511627776
        + u64::from(x.refusal) % 256 * 4294967296
        + (x.slot as u64) % 256 * 16777216
        + (x.activity as u64) % 256 * 65536
        + (x.place as u64) % 256 * 256
        + end_of(x.end) % 256
}

// Writes a number at a place, where there is such a place.
pub fn put(out: &mut [u64], at: usize, x: u64)
    ensures { out.new ≡ set out.old at x }
{
    if at < out.len() {
        out[at] = x;
    }
}
