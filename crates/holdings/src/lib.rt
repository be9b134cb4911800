// Guests, the CPUs that run them, and the pages they hold and share: kinds 10 to 15 and 18 to 21, as methods that take the tables by value,
// change them in place and give them back beside the answer.
#![tactic(auto)]

use tables::state::Tables;

mod pages;
mod vms;

// An `impl` for another crate's type is refused: the methods have a struct of their own around the tables.
#[derive(Clone, Copy, Debug, PartialEq, Eq)]
pub struct Holdings {
    pub tables: Tables,
}
