// Calls: a decoded action, and one frame in front of the tables.
#![tactic(auto)]

pub mod referee;
