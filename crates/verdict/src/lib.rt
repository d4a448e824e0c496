// The two verdicts, and pages that are fit.
#![tactic(auto)]

mod cells;
mod cover;
mod fences;
pub mod fit;
mod judgeable;
pub mod layout;
mod overlap;
mod pieces;
mod rise;
mod rules;
mod starts;
mod subject;
mod suffix;
mod sweep;
mod tally;
mod weighing;
