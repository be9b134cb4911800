// What an action leaves: the tables beside its answer, and the changes that lead there.
#![tactic(auto)]

pub mod changes;
pub mod out;
