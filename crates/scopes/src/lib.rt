// The scopes of an order: how a scope undoes, handles its fault and ends, when it turns to undoing, and how an activity with scopes in it stops.
#![tactic(auto)]

pub mod scopes;
pub mod stopping;
pub mod undoing;
