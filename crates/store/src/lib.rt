// A state with its tally as 12,748 bytes, and back.
#![tactic(auto)]

mod reading;
mod writing;

ghost use Rattle.std.specs.Prelude.{◌≡◌, eqb, leb, length, true, false};
ghost use Rattle.machine.specs.State.{unplanned, no_tally};
ghost use Rattle.store.specs.Bytes.{eight_at};
ghost use Rattle.store.specs.Packed.{packed, packed_into, message_into, unpacked, kept_as};

use machine::made::{no_message, no_order};
use machine::{Message, State, Tally};

// What bytes hold: where `refused` is false, a state with its tally; else the state with no plan, with nothing counted.
// Stays: (a) `state_of` of boundary/specs/Engine.antt speaks of the state of bytes that hold none: each call for C goes on with it.
#[derive(Clone, Copy)]
pub struct Kept {
    pub refused: bool,
    pub state: State,
    pub tally: Tally,
}

// Writes a state with its tally into the caller's bytes, and says whether there are 12,748 of them; it writes nothing where there are not.
// What it writes is read back as the same, for every state and tally there is.
pub fn pack(state: State, tally: Tally, out: &mut [u8]) -> bool
    ensures fits { result ≡ eqb (length out.old) 12748 }
    ensures is { out.new ≡ packed_into state tally out.old }
    ensures back { unpacked (packed state tally) ≡ kept_as false state tally }
{
    if out.len() != 12748 {
        return false;
    }
    writing::put_number(out, 0, 8, 3768458767009533773);
    writing::put_tally(out, 8, tally);
    writing::put_state(out, 28, state);
    true
}

// Writes a message into the first 32 of the caller's bytes, and says whether there are as many; it writes nothing where there are not.
pub fn write_message(m: Message, out: &mut [u8]) -> bool
    ensures fits { result ≡ leb 32 (length out.old) }
    ensures is { out.new ≡ message_into m out.old }
{
    if out.len() < 32 {
        return false;
    }
    writing::put_message(out, 0, m);
    true
}

// The number in the 8 bytes from a place on, 0 where there are not as many.
pub fn number_at(s: &[u8], at: usize) -> usize
    ensures { result ≡ eight_at s.now at }
{
    if s.len() < 8 || s.len() - 8 < at {
        return 0;
    }
    reading::eight_at(s, at)
}

// The state with no plan.
fn no_state() -> State
    ensures { result ≡ unplanned }
{
    State {
        plan: [0; 4096],
        length: 0,
        orders: [no_order(); 16],
        messages: [no_message(); 64],
        waiting: 0,
    }
}

// What is given for bytes that hold no state.
fn nothing() -> Kept
    ensures { result ≡ kept_as true unplanned no_tally }
{
    Kept {
        refused: true,
        state: no_state(),
        tally: machine::no_tally(),
    }
}

// Reads a state with its tally back.
pub fn unpack(s: &[u8]) -> Kept
    ensures { result ≡ unpacked s.now }
{
    if s.len() != 12748 || reading::eight_at(s, 0) != 3768458767009533773 {
        return nothing();
    }
    Kept {
        refused: false,
        state: reading::state_at(s, 28),
        tally: reading::tally_at(s, 8),
    }
}
