// In plain words what a call asks and what came of it, for the programs that a person watches. Nothing here changes anything.
#![tactic(auto)]

pub mod asked;
pub mod look;
pub mod say;
pub mod told;
pub mod turn;
