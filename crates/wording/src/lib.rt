// What the engine shows of itself: messages, what is offered, and orders on the drawing of their plan. Each function puts words into an `Out`, behind
// what it has.
#![tactic(auto)]

pub mod doing;
mod holding;
mod messages;
mod offering;
mod orders;

pub use holding::put_full;
pub use messages::{put_message, put_waiting};
pub use offering::{put_offer, put_offers};
pub use orders::{live_of, put_order, put_orders, put_standing, put_variables};
