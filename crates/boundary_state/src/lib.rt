// For callers in other languages: the version of the library, a state of any version brought up to date, and the seal of bytes that are kept. A state of today
// comes out as it is, and one of an older version as the same state of today. The crate boundary_state_c has its exports for C.
#![tactic(auto)]

mod older;

ghost use Rattle.std.specs.Prelude.{◌≡◌};
ghost use Rattle.seal.specs.Sealed.{seal_of};
ghost use Rattle.boundary_state.specs.Upgrade.{upgrade_number, upgrade_bytes};

// The version: 10,000 for each first number, 100 for each second, and the third.
pub fn moonhalyard_version() -> u32
    ensures { result ≡ 10000 }
{
    10000
}

// Brings the state that `old` holds, of whatever version, into `state`. 0; 17 where it holds none; 18 where `state` has not 12,748 bytes.
pub fn moonhalyard_upgrade(old: &[u8], state: &mut [u8]) -> u32
    ensures is { result ≡ upgrade_number old.now state.old }
    ensures bytes { state.new ≡ upgrade_bytes old.now state.old }
{
    if state.len() != 12748 {
        return 18;
    }
    if older::is_marked(old, 11964, 3552285984895749965) {
        older::from_first(old, state);
        return 0;
    }
    if older::is_marked(old, 12476, 3624343578933677901) {
        older::from_second(old, state);
        return 0;
    }
    if older::is_marked(old, 12492, 3696401172971605837) {
        older::reply(old, state);
        return 0;
    }
    if older::is_marked(old, 12748, 3768458767009533773) {
        older::copy(old, state);
        return 0;
    }
    17
}

// The seal of these bytes, to be kept behind them: read again, they are whole where their seal is the one that was kept.
pub fn moonhalyard_seal(bytes: &[u8]) -> u64
    ensures { result ≡ seal_of bytes.now }
{
    seal::seal(bytes)
}
