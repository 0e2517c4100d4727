// The mending of padded plans for callers in other languages: bytes go in and out of lent buffers, and one number comes out. The crate boundary_mend_c has its
// exports for C.
#![tactic(auto)]

ghost use Rattle.std.specs.Prelude.{length, ◌≡◌};
ghost use Rattle.boundary_mend.specs.Packed.{answer_number};
ghost use Rattle.mend.specs.Outcome.{answer_of, buffer_of};
ghost use Rattle.mend.specs.Padded.{read_padded};

use mend::{Answer, Mended, Refusal};

#[tactic(auto, unfolding(crate::specs::Packed::answer_number))]
fn number_of(a: Answer) -> u64
    ensures { result ≡ answer_number a }
{
    match a {
        Err(Refusal { number, place }) => {
            u64::from(number) * 4294967296 + (place as u64) % 4294967296
        }
        Ok(Mended { length, cut }) => (cut as u64) % 65536 * 65536 + (length as u64) % 65536,
    }
}

// Mends a padded plan into `out`: the refusal's number times 2^32 and its place, or the groups cut times 2^16 and how many bytes were written.
pub fn moonhalyard_mend(s: &[u8], out: &mut [u8]) -> u64
    ensures is { result ≡ answer_number (answer_of s.now (read_padded s.now) (length out.old)) }
    ensures bytes { out.new ≡ buffer_of (read_padded s.now) out.old }
{
    number_of(mend::mend(s, out))
}
