// A recording (document 02, K8): events as tagged fields. One field, one event, one step of a pass at a time; the lists of them are lent in `tape`, and what an event does to a unit is `replay`.
#![tactic(auto)]

pub mod event;
pub mod fault;
pub mod field;
pub mod layout;
pub mod pass;
pub mod reading;
pub mod tag;
