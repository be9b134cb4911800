// The tables by value, one search over a lent table of any length, lookup, and quiescence.
#![tactic(auto)]

pub mod search;
pub mod state;
