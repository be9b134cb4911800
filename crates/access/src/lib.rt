// Accesses: kinds 01 to 05 on lent tables, and who is named in them.
#![tactic(auto)]

pub mod guests;
pub mod parts;
