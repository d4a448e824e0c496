// What each edit of a page writes. Each function is given the facts that the tests of a call found.
#![tactic(auto)]

pub mod change;
pub mod copy;
pub mod insert;
mod numbers;
mod payload;
pub mod set;
pub mod slot;
pub mod suffix;
