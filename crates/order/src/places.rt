// Pages and CPUs: who holds or runs is nobody or a guest that is present, and no page has two guests.
ghost use Rattle.std.specs.Prelude.{◌≡◌};
ghost use Rattle.tables.specs.Wf.{vm_ok, page_at, cpu_at, pages_ok, cpus_ok};

use numbers::cells;
use tables::state;
use tables::state::{Lent, Tables};

// Nobody, or a guest that is present.
fn vm_ok(present: &[bool], who: u8) -> bool
    ensures { result ≡ vm_ok present.now who }
{
    who == Tables::NOBODY
        || state::guest_of(who).is_some_and(|guest| cells::get_or(present, guest as usize, false))
}

#[tactic(auto, using(numbers::proofs::Bools::and_asks, numbers::proofs::Bools::or_asks), unfolding(numbers::specs::Tests::isnt, tables::specs::Wf::page_ok))]
fn page_ok(t: Lent, page: usize) -> bool
    ensures { result ≡ page_at t.entry.present.now t.entry.holder.now t.entry.dma.now t.entry.region.now page }
{
    let holder = cells::get_or(t.holder, page, Tables::NOBODY);
    let dma = cells::get_or(t.dma, page, Tables::NOBODY);
    let region = cells::get_or(t.region, page, false);
    let own = Tables::GUEST <= holder;
    let io = Tables::GUEST <= dma;
    (holder == Tables::HYPERVISOR || vm_ok(t.present, holder))
        && vm_ok(t.present, dma)
        && !(region & (own | io))
        && (!(own & io) | (holder == dma))
}

fn cpu_ok(t: Lent, unit: usize) -> bool
    ensures { result ≡ cpu_at t.entry.present.now t.entry.running.now unit }
{
    vm_ok(t.present, cells::get_or(t.running, unit, Tables::NOBODY))
}

pub fn pages_ok(t: Lent) -> bool
    ensures { result ≡ pages_ok t.entry.present.now t.entry.holder.now t.entry.dma.now t.entry.region.now }
{
    (0..Tables::PAGES).all(|page| page_ok(t, page))
}

pub fn cpus_ok(t: Lent) -> bool
    ensures { result ≡ cpus_ok t.entry.present.now t.entry.running.now }
{
    (0..Tables::UNITS).all(|unit| cpu_ok(t, unit))
}
