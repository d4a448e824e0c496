// The parts of a page: its header, its slots, its entries, its space.
#![tactic(auto)]

pub mod admit;
pub mod entry;
pub mod header;
pub mod key;
pub mod slots;
pub mod space;
pub mod trailing;
