// Whether a message fits an open receive: the messages as plain numbers, what a row asks of a message, the search for a receive, and the fewest unchecked
// places.
#![tactic(auto)]

pub mod fitness;
pub mod least;
pub mod letters;
pub mod search;

// An open receive, by the slot of its order and its activity.
#[derive(Clone, Copy)]
pub struct Receiver {
    pub slot: usize,
    pub activity: usize,
}
