// Writes the parts of a state into bytes, each from its place on.
ghost use Rattle.std.specs.Prelude.{◌+◌, ◌*◌, ◌≤◌, length, [], ◌∷◌};
ghost use Rattle.order.specs.Lists.{each};
ghost use Rattle.store.specs.Bytes.{spelled};
ghost use Rattle.store.specs.Packed.{tally_bytes, message_bytes, closing_bytes, order_bytes, state_bytes};
ghost use Rattle.store.specs.Putting.{Put};

use machine::{Message, State, Tally};
use order::{Closing, Order};

// Bytes.
fn put_bytes(out: &mut [u8], at: usize, s: &[u8])
    requires { at + length s.now ≤ length out.old }
    ensures { Put out.old out.new at (length s.now) s.now }
{
    out[at..at + s.len()].copy_from_slice(s);
}

// A byte.
fn put_byte(out: &mut [u8], at: usize, value: u8)
    requires { at + 1 ≤ length out.old }
    ensures { Put out.old out.new at 1 (value ∷ []) }
{
    out[at] = value;
}

// A number in `width` bytes.
pub(crate) fn put_number(out: &mut [u8], at: usize, width: usize, value: u64)
    requires { at + width ≤ length out.old }
    ensures { Put out.old out.new at width (spelled width value) }
{
    let mut rest = value;
    for i in 0..width {
        out[at + i] = (rest % 256) as u8;
        rest /= 256;
    }
}

// A number in 4 bytes.
fn put_four(out: &mut [u8], at: usize, value: u32)
    requires { at + 4 ≤ length out.old }
    ensures { Put out.old out.new at 4 (spelled 4 value) }
{
    put_number(out, at, 4, value as u64);
}

// A number in 8 bytes.
fn put_eight(out: &mut [u8], at: usize, value: usize)
    requires { at + 8 ≤ length out.old }
    ensures { Put out.old out.new at 8 (spelled 8 value) }
{
    put_number(out, at, 8, value as u64);
}

// Numbers in 4 bytes each.
fn put_fours(out: &mut [u8], at: usize, s: &[u32])
    requires { at + length s.now * 4 ≤ length out.old }
    ensures { Put out.old out.new at (length s.now * 4) (each (spelled 4) s.now) }
{
    for (i, x) in s.iter().enumerate() {
        put_four(out, at + i * 4, *x);
    }
}

// A tally.
pub(crate) fn put_tally(out: &mut [u8], at: usize, tally: Tally)
    requires { at + 20 ≤ length out.old }
    ensures { Put out.old out.new at 20 (tally_bytes tally) }
{
    put_four(out, at, tally.started);
    put_four(out, at + 4, tally.well);
    put_four(out, at + 8, tally.handled);
    put_four(out, at + 12, tally.failed);
    put_four(out, at + 16, tally.left);
}

// A message.
pub(crate) fn put_message(out: &mut [u8], at: usize, m: Message)
    requires { at + 32 ≤ length out.old }
    ensures { Put out.old out.new at 32 (message_bytes m) }
{
    let values = m.values;
    put_four(out, at, m.partner);
    put_four(out, at + 4, m.operation);
    put_four(out, at + 8, m.count);
    put_fours(out, at + 12, &values);
    put_four(out, at + 28, m.reply);
}

// A closing.
fn put_closing(out: &mut [u8], at: usize, c: Closing)
    requires { at + 2 ≤ length out.old }
    ensures { Put out.old out.new at 2 (closing_bytes c) }
{
    put_byte(out, at, c.scope);
    put_byte(out, at + 1, c.part);
}

// The closings of an order.
fn put_closings(out: &mut [u8], at: usize, closings: [Closing; 32])
    requires { at + 64 ≤ length out.old }
    ensures { Put out.old out.new at 64 (each closing_bytes closings) }
{
    for (i, c) in closings.iter().enumerate() {
        put_closing(out, at + i * 2, *c);
    }
}

// An order.
fn put_order(out: &mut [u8], at: usize, o: Order)
    requires { at + 410 ≤ length out.old }
    ensures { Put out.old out.new at 410 (order_bytes o) }
{
    put_byte(out, at, o.root);
    let marks = o.marks;
    put_bytes(out, at + 1, &marks);
    let values = o.values;
    put_fours(out, at + 257, &values);
    let bound = o.bound;
    put_bytes(out, at + 321, &bound);
    let remembered = o.remembered;
    put_closings(out, at + 337, remembered);
    put_eight(out, at + 401, o.kept);
    put_byte(out, at + 409, o.cause);
}

// The messages.
fn put_messages(out: &mut [u8], at: usize, messages: [Message; 64])
    requires { at + 2048 ≤ length out.old }
    ensures { Put out.old out.new at 2048 (each message_bytes messages) }
{
    for (i, m) in messages.iter().enumerate() {
        put_message(out, at + i * 32, *m);
    }
}

// The orders.
fn put_orders(out: &mut [u8], at: usize, orders: [Order; 16])
    requires { at + 6560 ≤ length out.old }
    ensures { Put out.old out.new at 6560 (each order_bytes orders) }
{
    for (i, o) in orders.iter().enumerate() {
        put_order(out, at + i * 410, *o);
    }
}

// A state.
pub(crate) fn put_state(out: &mut [u8], at: usize, state: State)
    requires { at + 12720 ≤ length out.old }
    ensures { Put out.old out.new at 12720 (state_bytes state) }
{
    put_eight(out, at, state.length);
    put_bytes(out, at + 8, &state.plan);
    put_eight(out, at + 4104, state.waiting);
    put_messages(out, at + 4112, state.messages);
    put_orders(out, at + 6160, state.orders);
}
