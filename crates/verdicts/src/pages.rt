// Pages: who holds them and who shares them. Kinds 12 to 15, 20 and 21.
#![tactic(auto, using(numbers::proofs::Bools::not_is, numbers::proofs::Bools::and_asks, numbers::proofs::Bools::or_asks), unfolding(numbers::specs::Rules::least, access::specs::Lent::number, numbers::specs::Sizes::guests, numbers::specs::Sizes::pages))]

ghost use Rattle.std.specs.Prelude.{◌≡◌, IfOk};
ghost use Rattle.numbers.specs.Refusals.{numbered};
ghost use Rattle.numbers.specs.Entries.{pair};
ghost use Rattle.numbers.specs.Search.{first};
ghost use Rattle.numbers.specs.Tests.{◌or◌};
ghost use Rattle.tables.specs.Lent.{tables_of};
ghost use Rattle.tables.specs.State.{by_side};
ghost use Rattle.tables.specs.Table.{hit};
ghost use Rattle.tables.specs.Wants.{W, shared_by};
ghost use Rattle.rules.specs.Actions.{holds, dma_holds, leans};
ghost use Rattle.rules.specs.Actions.Op.{AssignPage, ReclaimPage, SharePage, UnsharePage, IommuAssignPage, IommuReclaimPage};
ghost use Rattle.access.specs.Lent.{number};
ghost use Rattle.verdicts.specs.Places.{new_row};

use crate::places;
use crate::walks::Row;
use access::parts;
use numbers::frames::Action;
use numbers::refusals::Refusal;
use numbers::{cells, entries};
use tables::search;
use tables::search::Want;
use tables::state::{Lent, Side, Tables};

// 12
pub fn assign_page(t: Lent, g: u8, p: u16) -> Result<(), Refusal>
    ensures { numbered result ≡ number (tables_of t.entry) (AssignPage g p) }
{
    Refusal::OutOfRange.when(Action::GUESTS <= g || Action::PAGES <= p)?;
    Refusal::AbsentGuest.when(parts::absent(t.present, g))?;
    let holder = cells::get_or(t.holder, p as usize, Tables::NOBODY);
    Refusal::NotHeld.when(holder != Tables::HYPERVISOR)?;
    let region = cells::get_or(t.region, p as usize, false);
    Refusal::Taken.when(region || parts::another(t.dma, g, p))
}

// 20
pub fn iommu_assign_page(t: Lent, g: u8, p: u16) -> Result<(), Refusal>
    ensures { numbered result ≡ number (tables_of t.entry) (IommuAssignPage g p) }
{
    Refusal::OutOfRange.when(Action::GUESTS <= g || Action::PAGES <= p)?;
    Refusal::AbsentGuest.when(parts::absent(t.present, g))?;
    let region = cells::get_or(t.region, p as usize, false);
    let theirs = parts::another(t.dma, g, p) || parts::another(t.holder, g, p);
    Refusal::Taken.when(region || theirs)
}

// 20 keeps the words of a page that the guest holds already, for DMA or for CPU.
pub fn held_already(t: Lent, g: u8, p: u16) -> bool
    ensures { result ≡ (dma_holds (tables_of t.entry) g p or holds (tables_of t.entry) g p) }
{
    parts::holds(t.dma, g, p) || parts::holds(t.holder, g, p)
}

// 13, 21: nothing of the side leads to the page any more; on the CPU side no pair names it either.
pub fn reclaim_page(t: Lent, side: Side, g: u8, p: u16) -> Result<(), Refusal>
    ensures { numbered result ≡ number (tables_of t.entry) (by_side side (ReclaimPage g p) (IommuReclaimPage g p)) }
{
    Refusal::OutOfRange.when(Action::GUESTS <= g || Action::PAGES <= p)?;
    Refusal::AbsentGuest.when(parts::absent(t.present, g))?;
    match side {
        Side::Cpu => {
            Refusal::NotHeld.when(!parts::holds(t.holder, g, p))?;
            Refusal::StillInUse.when(!t.page_is_quiescent(p))
        }
        Side::Iommu => {
            Refusal::NotHeld.when(!parts::holds(t.dma, g, p))?;
            Refusal::StillInUse.when(!t.iommu_page_is_quiescent(p))
        }
    }
}

// 14: a new pair and where it goes, or nothing, since one that stands, in either order, stays as it is.
pub fn share_page(t: Lent, l: u8, r: u8, p: u16) -> Result<Option<Row>, Refusal>
    ensures number { numbered result ≡ number (tables_of t.entry) (SharePage l r p) }
    ensures row { IfOk result (λ row. row ≡ new_row (shared_by l r p) t.entry.pairs.now (pair l r p 0)) }
{
    let far = Action::GUESTS <= l || Action::GUESTS <= r || Action::PAGES <= p;
    Refusal::OutOfRange.when(far)?;
    Refusal::SameGuest.when(l == r)?;
    Refusal::AbsentGuest.when(parts::absent(t.present, l) || parts::absent(t.present, r))?;
    Refusal::NotHeld.when(!parts::holds(t.holder, l, p))?;
    match places::new_place(t.pairs, Want::Pair(l, r, p))? {
        Some(at) => {
            let word = entries::pair(l, r, p, 0);
            Ok(Some(Row { at, word }))
        }
        None => Ok(None),
    }
}

// The guest maps the page and is not its CPU holder.
#[tactic(auto, using(numbers::proofs::Bools::not_is, numbers::proofs::Bools::and_asks, numbers::proofs::Bools::or_asks), unfolding(rules::specs::Actions::leans))]
fn leans(t: Lent, g: u8, p: u16) -> bool
    ensures { result ≡ leans (tables_of t.entry) g p }
{
    search::has(t.map, Want::Maps(g, p)) && !parts::holds(t.holder, g, p)
}

// 15: the first place of the pair.
#[tactic(auto, using(numbers::proofs::Bools::not_is, numbers::proofs::Bools::and_asks, numbers::proofs::Bools::or_asks, crate::proofs::PlaceLaws::asked_first), unfolding(numbers::specs::Rules::least, access::specs::Lent::number, numbers::specs::Sizes::guests, numbers::specs::Sizes::pages))]
pub fn unshare_page(t: Lent, l: u8, r: u8, p: u16) -> Result<usize, Refusal>
    ensures number { numbered result ≡ number (tables_of t.entry) (UnsharePage l r p) }
    ensures at { IfOk result (λ at. at ≡ first (hit W (shared_by l r p)) t.entry.pairs.now) }
{
    let far = Action::GUESTS <= l || Action::GUESTS <= r || Action::PAGES <= p;
    Refusal::OutOfRange.when(far)?;
    Refusal::SameGuest.when(l == r)?;
    Refusal::AbsentGuest.when(parts::absent(t.present, l) || parts::absent(t.present, r))?;
    let at = places::standing(t.pairs, Want::Pair(l, r, p))?;
    Refusal::StillInUse.when(leans(t, l, p) || leans(t, r, p))?;
    Ok(at)
}
