// The exports of the crate boundary_state for C: the version, a state brought up to date, and the seal, for callers in other languages, as a static library.
#![tactic(auto)]

ghost use Rattle.std.specs.Prelude.{◌≡◌};
ghost use Rattle.boundary_state.specs.Upgrade.{upgrade_bytes, upgrade_number};
ghost use Rattle.seal.specs.Sealed.{seal_of};

// The version: 10,000 for each first number, 100 for each second, and the third.
#[unsafe(no_mangle)]
pub extern "C" fn moonhalyard_version() -> u32
    ensures { result ≡ 10000 }
{
    boundary_state::moonhalyard_version()
}

// Brings the state that `old` holds, of whatever version, into `state`. 0; 17 where it holds none; 18 where `state` has not 12,748 bytes.
#[unsafe(no_mangle)]
pub extern "C" fn moonhalyard_upgrade(old: &[u8], state: &mut [u8]) -> u32
    ensures is { result ≡ upgrade_number old.now state.old }
    ensures bytes { state.new ≡ upgrade_bytes old.now state.old }
{
    boundary_state::moonhalyard_upgrade(old, state)
}

// The seal of these bytes, to be kept behind them: read again, they are whole where their seal is the one that was kept.
#[unsafe(no_mangle)]
pub extern "C" fn moonhalyard_seal(bytes: &[u8]) -> u64
    ensures { result ≡ seal_of bytes.now }
{
    boundary_state::moonhalyard_seal(bytes)
}
