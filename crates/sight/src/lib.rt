// What the rows of an order have on offer. No list is built: a choice is counted down.
#![tactic(auto)]

pub mod counting;
pub mod memory;
pub mod one;
pub mod rows;

// A choice that is counted down over the offer: how much of it is left, and, once it is found, the slot, the activity and the message place.
#[derive(Clone, Copy)]
pub struct Pointer {
    pub left: usize,
    pub found: bool,
    pub slot: usize,
    pub activity: usize,
    pub place: usize,
}

// What was seen of the offer: where the choice stands, and whether something is held.
#[derive(Clone, Copy)]
pub struct Sight {
    pub pointer: Pointer,
    pub held: bool,
}
