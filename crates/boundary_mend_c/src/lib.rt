// The exports of the crate boundary_mend for C: the mending of padded plans for callers in other languages, as a static library.
#![tactic(auto)]

ghost use Rattle.std.specs.Prelude.{length, ◌≡◌};
ghost use Rattle.boundary_mend.specs.Packed.{answer_number};
ghost use Rattle.mend.specs.Outcome.{answer_of, buffer_of};
ghost use Rattle.mend.specs.Padded.{read_padded};

// Mends a padded plan into `out`: the refusal's number times 2^32 and its place, or the groups cut times 2^16 and how many bytes were written.
#[unsafe(no_mangle)]
pub extern "C" fn moonhalyard_mend(s: &[u8], out: &mut [u8]) -> u64
    ensures is { result ≡ answer_number (answer_of s.now (read_padded s.now) (length out.old)) }
    ensures bytes { out.new ≡ buffer_of (read_padded s.now) out.old }
{
    boundary_mend::moonhalyard_mend(s, out)
}
