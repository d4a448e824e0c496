// Hints: eight heads that narrow a search to a window of the slots.
#![tactic(auto)]

pub mod fresh;
pub mod hints;
pub mod window;
