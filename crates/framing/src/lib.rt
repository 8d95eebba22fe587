// Bits on the wire (document 02, K3): characters as frames of half-bit cells, written into a lent list and read from one. No unit is asked; what stands on a port's control bits is `eds8`.
#![tactic(auto)]

pub mod cells;
pub mod eds8;
pub mod form;
mod heard;
pub mod read;
pub mod refusal;
pub mod write;
