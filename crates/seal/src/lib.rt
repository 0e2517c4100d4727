// The seal of bytes, by which what was saved is known to be whole.
#![tactic(auto)]

ghost use Rattle.std.specs.Prelude.{◌≡◌};
ghost use Rattle.seal.specs.Sealed.{seal_of};

// The seal of these bytes. Of any bytes: no seal is wrong by itself, only beside what it seals.
#[tactic(auto, unfolding(crate::specs::Sealed::seal_from, crate::specs::Sealed::seal_of))]
pub fn seal(bytes: &[u8]) -> u64
    ensures { result ≡ seal_of bytes.now }
{
    let mut weight: u64 = 1;
    let mut moment: u64 = 0;
    for &b in bytes {
        weight = (weight + u64::from(b)) % 4294967296;
        moment = (moment + weight) % 4294967296;
    }
    moment * 4294967296 + weight
}
