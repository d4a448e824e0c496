// Bytes at a place of a lent slice: numbers read and written, runs copied and moved.
#![tactic(auto)]

pub mod number;
pub mod runs;
pub mod value;
