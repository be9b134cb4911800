// Good order as a yes or no, over any tables: refusal 2.
#![tactic(auto)]

ghost use Rattle.std.specs.Prelude.{◌≡◌};
ghost use Rattle.tables.specs.Lent.{tables_of};
ghost use Rattle.tables.specs.Wf.{in_order, wf};

use tables::state::{Lent, Side, Tables};

mod places;
mod rows;
mod walks;

// All of it, but for the lengths, which an array has by its type.
#[tactic(auto, using(numbers::proofs::Bools::and_asks), unfolding(tables::specs::Wf::in_order))]
fn in_order(t: Lent) -> bool
    ensures { result ≡ in_order (tables_of t.entry) }
{
    places::pages_ok(t)
        && places::cpus_ok(t)
        && walks::pairs_ok(t)
        && walks::walk_ok(t, Side::Cpu)
        && walks::walk_ok(t, Side::Iommu)
}

pub fn wf(t: Tables) -> bool
    ensures { result ≡ wf t }
{
    in_order(t.lend())
}
