// The child number.
#![tactic(auto)]

pub mod lookup;
