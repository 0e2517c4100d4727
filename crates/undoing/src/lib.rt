// Holds no code: demand 3, what ties its history to the plan, the steps, their answers and the states, and the proofs, over the machine's definitions.
#![tactic(auto)]
