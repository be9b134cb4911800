// Verdicts: what each kind from 10 on is told before anything is done, on lent tables.
#![tactic(auto)]

pub mod pages;
pub mod places;
pub mod vms;
pub mod walks;
