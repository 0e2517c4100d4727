// Two receives open for one thing: which of them faults, and whether an order has come nearer to where no more can.
#![tactic(auto)]

pub mod conflict;
pub mod ranks;
