// Searches: a probe against the prefix, the slots and the fences; halving, find, the bounds, compare.
#![tactic(auto)]

pub mod bound;
pub mod compare;
pub mod fence;
pub mod find;
mod halve;
mod page;
pub mod probe;
mod seek;
mod slot;
