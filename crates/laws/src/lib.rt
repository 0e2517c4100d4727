// Holds no code: what the definitions of the machine promise, stated in specs/ and proved, and what an offer and a state keep.
#![tactic(auto)]
