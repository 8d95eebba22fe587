// The writer and the reader of a recording over lent lists (document 02, K8): events to bytes, bytes to events. Each is a thin walk over what `recording` does with one event or one field.
#![tactic(auto)]

pub mod reader;
pub mod writer;
