// Batches: records filed on a page at once.
#![tactic(auto)]

pub mod batch;
mod records;
