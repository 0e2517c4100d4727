// Holds no code: independent steps in either order, stated and proved over the definitions of the machine.
#![tactic(auto)]
