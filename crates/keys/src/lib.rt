// Keys: their order, their heads, and what two of them share.
#![tactic(auto)]

pub mod head;
pub mod order;
pub mod shared;
