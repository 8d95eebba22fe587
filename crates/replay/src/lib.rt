// Playing a recording (document 02, K8): what each event is to the unit, and the events of a lent list played one after the other.
#![tactic(auto)]

pub mod call;
pub mod play;
pub mod walk;
