// What a driver of the text of sessions (tests/second/FORMAT.md) needs beside the calls: digests, the line that is read, the line that is printed, pokes, the host's fills.
#![tactic(auto)]

pub mod digest;
pub mod host;
pub mod poke;
pub mod read;
pub mod say;
