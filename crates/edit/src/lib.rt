// Edits: the calls of document 01 that change a page.
#![tactic(auto)]

pub mod begin;
pub mod change;
pub mod copy;
mod cut;
mod fences;
pub mod insert;
mod neighbours;
pub mod set;
mod values;
