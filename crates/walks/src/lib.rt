// Translations, of CPUs and of the IOMMU alike: accesses (kinds 01 to 05), maps and TLBs (16, 17, 1a, 1b and 22 to 25), as methods that take the
// tables by value, change them in place and give them back beside the answer.
#![tactic(auto)]

use tables::state::Tables;

mod accesses;
mod maps;

#[derive(Clone, Copy, Debug, PartialEq, Eq)]
pub struct Walks {
    pub tables: Tables,
}
