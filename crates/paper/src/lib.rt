// Document 01 as definitions. This crate has no code of calls: its types are below, the rules and every
// call's answer are in specs/, and what follows from them is in proofs/.
#![tactic(auto)]

pub mod answers;
pub mod page;
pub mod refusal;
