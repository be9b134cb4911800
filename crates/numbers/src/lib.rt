// Numbers and entries: ids, keys, entries and pairs as words, the page and offset of a word address, frames; what an answer carries, and why it is refused.
#![tactic(auto)]

pub mod addresses;
pub mod answers;
pub mod cells;
pub mod entries;
pub mod frames;
pub mod refusals;
