// What each call answers where it is not refused, where a number alone does not say it. Every call answers one of these, a number, or
// nothing, or else its refusal: a `Result` over `Refusal`.
use crate::page::Slot;

// Find: the equal key's slot, or the number of smaller keys.
#[derive(Clone, Copy)]
pub enum Found {
    Equal(usize),
    Smaller(usize),
}

// Child: its slot, from -1 to 1,015, and that child's value.
#[derive(Clone, Copy)]
pub struct Child {
    pub slot: i32,
    pub value: u64,
}

// Entry: its slot, by which its key is read, and its value.
#[derive(Clone, Copy)]
pub struct EntryRead {
    pub slot: Slot,
    pub value: u64,
}

// The space numbers; `compacted` is free after compaction.
#[derive(Clone, Copy)]
pub struct Space {
    pub start: u64,
    pub end: u64,
    pub free: u64,
    pub used: u64,
    pub effective: u64,
    pub reclaimable: u64,
    pub compacted: u64,
}

// Forecast from two fences: the length of their common prefix, and the space that a page begins with.
#[derive(Clone, Copy)]
pub struct Forecast {
    pub prefix_len: usize,
    pub space: usize,
}
