// Every call with numbers for its answer, as the static library `dorgumanna_c` exports it.
#![tactic(auto)]

pub mod answer;
pub mod calls;
pub mod numbers;
