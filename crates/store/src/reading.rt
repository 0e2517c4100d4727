// Reads the parts of a state out of bytes, each from its place on.
ghost use Rattle.std.specs.Prelude.{◌+◌, ◌*◌, ◌<◌, ◌≤◌, length, get_or, take, drop, ◌≡◌};
ghost use Rattle.store.specs.Bytes.{number_in, many_in};
ghost use Rattle.store.specs.Packed.{tally_in, message_in, closing_in, order_in, state_in};

use machine::{Message, State, Tally};
use order::{Closing, Order};

fn wide(x: u8) -> u64
    ensures { (result ≡ x) × (result < 256) }
{
    x as u64
}

// The byte at a place.
fn byte_at(s: &[u8], at: usize) -> u64
    requires { at < length s.now }
    ensures { (result ≡ get_or s.now at 0) × (result < 256) }
{
    wide(s[at])
}

// A number in 4 bytes.
fn four_at(s: &[u8], at: usize) -> u32
    requires { at + 4 ≤ length s.now }
    ensures { result ≡ number_in 4 (drop at s.now) }
{
    let second = at + 1;
    let third = second + 1;
    let fourth = third + 1;
    let a = byte_at(s, at);
    let b = byte_at(s, second);
    let c = byte_at(s, third);
    let d = byte_at(s, fourth);
    (a + 256 * (b + 256 * (c + 256 * d))) as u32
}

// A number in 8 bytes.
pub(crate) fn eight_at(s: &[u8], at: usize) -> usize
    requires { at + 8 ≤ length s.now }
    ensures { result ≡ number_in 8 (drop at s.now) }
{
    let low = four_at(s, at);
    let high = four_at(s, at + 4);
    (low as usize) + 4294967296 * (high as usize)
}

// Bytes, as many as there is room for.
fn take_bytes(s: &[u8], at: usize, out: &mut [u8])
    requires { at + length out.old ≤ length s.now }
    ensures { out.new ≡ take (length out.old) (drop at s.now) }
{
    out.copy_from_slice(&s[at..at + out.len()]);
}

// Numbers in 4 bytes each, as many as there is room for.
fn take_fours(s: &[u8], at: usize, out: &mut [u32])
    requires { at + 4 * length out.old ≤ length s.now }
    ensures { out.new ≡ many_in (number_in 4) 4 (length out.old) (drop at s.now) }
{
    for i in 0..out.len() {
        out[i] = four_at(s, at + i * 4);
    }
}

// A tally.
pub(crate) fn tally_at(s: &[u8], at: usize) -> Tally
    requires { at + 20 ≤ length s.now }
    ensures { result ≡ tally_in (drop at s.now) }
{
    Tally {
        started: four_at(s, at),
        well: four_at(s, at + 4),
        handled: four_at(s, at + 8),
        failed: four_at(s, at + 12),
        left: four_at(s, at + 16),
    }
}

// A message.
fn message_at(s: &[u8], at: usize) -> Message
    requires { at + 32 ≤ length s.now }
    ensures { result ≡ message_in (drop at s.now) }
{
    let mut values = [0u32; 4];
    take_fours(s, at + 12, &mut values);
    Message {
        partner: four_at(s, at),
        operation: four_at(s, at + 4),
        count: four_at(s, at + 8),
        values,
        reply: four_at(s, at + 28),
    }
}

// A closing.
fn closing_at(s: &[u8], at: usize) -> Closing
    requires { at + 2 ≤ length s.now }
    ensures { result ≡ closing_in (drop at s.now) }
{
    let next = at + 1;
    Closing {
        scope: s[at],
        part: s[next],
    }
}

// The closings of an order.
fn closings_at(s: &[u8], at: usize) -> [Closing; 32]
    requires { at + 64 ≤ length s.now }
    ensures { result ≡ many_in closing_in 2 32 (drop at s.now) }
{
    let c = closing_at(s, at);
    let mut out = [c; 32];
    for i in 0..32 {
        out[i] = closing_at(s, at + i * 2);
    }
    out
}

// An order.
fn order_at(s: &[u8], at: usize) -> Order
    requires { at + 410 ≤ length s.now }
    ensures { result ≡ order_in (drop at s.now) }
{
    let mut marks = [0u8; 256];
    let mut values = [0u32; 16];
    let mut bound = [0u8; 16];
    take_bytes(s, at + 1, &mut marks);
    take_fours(s, at + 257, &mut values);
    take_bytes(s, at + 321, &mut bound);
    let root = s[at];
    let remembered = closings_at(s, at + 337);
    let kept = eight_at(s, at + 401);
    let cause = s[at + 409];
    Order {
        root,
        marks,
        values,
        bound,
        remembered,
        kept,
        cause,
    }
}

// The messages.
fn messages_at(s: &[u8], at: usize) -> [Message; 64]
    requires { at + 2048 ≤ length s.now }
    ensures { result ≡ many_in message_in 32 64 (drop at s.now) }
{
    let m = message_at(s, at);
    let mut out = [m; 64];
    for i in 0..64 {
        out[i] = message_at(s, at + i * 32);
    }
    out
}

// The orders.
fn orders_at(s: &[u8], at: usize) -> [Order; 16]
    requires { at + 6560 ≤ length s.now }
    ensures { result ≡ many_in order_in 410 16 (drop at s.now) }
{
    let o = order_at(s, at);
    let mut out = [o; 16];
    for i in 0..16 {
        out[i] = order_at(s, at + i * 410);
    }
    out
}

// A state.
pub(crate) fn state_at(s: &[u8], at: usize) -> State
    requires { at + 12720 ≤ length s.now }
    ensures { result ≡ state_in (drop at s.now) }
{
    let mut bytes = [0u8; 4096];
    take_bytes(s, at + 8, &mut bytes);
    let length = eight_at(s, at);
    let waiting = eight_at(s, at + 4104);
    let messages = messages_at(s, at + 4112);
    let orders = orders_at(s, at + 6160);
    State {
        plan: bytes,
        length,
        orders,
        messages,
        waiting,
    }
}
