// What messages and steps are, in words and by the names of the plan. Each function puts words into an `Out`, behind what it has.
#![tactic(auto)]

mod letters;
mod ready;
mod settled;
mod steps;

pub use letters::{is_received, is_taken, put_exchange, put_letter};
pub use ready::{SENDS, fault_of, put_known, put_sending_fault, put_sent, value_in};
pub use steps::put_step;
