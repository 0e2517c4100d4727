// What may be wrong with an accepted plan, told before anything runs: warnings, each with its activity, by the plan's table alone. A plan with
// warnings is a plan: what is warned of is what it does, and seldom what was meant.
#![tactic(auto)]

mod binding;
mod numbering;
mod partners;
mod reaching;
mod rivals;
mod sending;
mod swallowing;
mod undoing;
mod uses;
mod warnings;
mod ways;

pub use rivals::{contested_in, is_same_thing, rival_of};
pub use sending::is_ever_taken;
pub use warnings::{put_check, put_warnings};
