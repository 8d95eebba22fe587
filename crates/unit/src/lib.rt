// The record of the unit, by value, what calls answer, and the refusals that every call asks for first.
#![tactic(auto)]

pub mod effect;
pub mod mux;
pub mod refusal;
pub mod reply;
pub mod setup;
