// What a state is made of: no order, no message, the bytes of a plan, and a fresh state.
ghost use Rattle.std.specs.Prelude.{◌≤◌, length, ◌≡◌};
ghost use Rattle.order.specs.Lists.{stored};
ghost use Rattle.order.specs.State.{no_order};
ghost use Rattle.machine.specs.State.{no_message, fresh};

use super::{Message, State};
use order::{Closing, Order};

// What a free slot holds.
pub fn no_order() -> Order
    ensures { result ≡ no_order }
{
    Order {
        root: 0,
        marks: [0u8; 256],
        values: [0u32; 16],
        bound: [0u8; 16],
        remembered: [Closing { scope: 0, part: 0 }; 32],
        kept: 0,
        cause: 0,
    }
}

// A message with nothing in it.
pub fn no_message() -> Message
    ensures { result ≡ no_message }
{
    Message {
        partner: 0,
        operation: 0,
        count: 0,
        values: [0u32; 4],
        reply: 0,
    }
}

// Bytes, with zeros behind them: 4,096 in all.
fn bytes_of(s: &[u8]) -> [u8; 4096]
    requires { length s.now ≤ 4096 }
    ensures { result ≡ stored 4096 s.now }
{
    let mut out = [0; 4096];
    out[..s.len()].copy_from_slice(s);
    out
}

// A state with the plan that some bytes spell, no order and no message.
pub(crate) fn fresh_state(s: &[u8]) -> State
    requires { length s.now ≤ 4096 }
    ensures { result ≡ fresh s.now }
{
    State {
        plan: bytes_of(s),
        length: s.len(),
        orders: [no_order(); 16],
        messages: [no_message(); 64],
        waiting: 0,
    }
}
