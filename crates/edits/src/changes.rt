// Changes of one part of the tables, or of memory, in place.
ghost use Rattle.std.specs.Prelude.{◌≡◌, set};
ghost use Rattle.tables.specs.State.{map_of, tlb_of, held_on};
ghost use Rattle.tables.specs.Steps.{wipe_from};
ghost use Rattle.tables.specs.Wants.{W, meets, invalidated};
ghost use Rattle.rules.specs.Actions.{clear_page};
ghost use Rattle.rules.specs.Parts.{with_held, with_walk};
ghost use Rattle.edits.specs.Edits.{who_is};

use numbers::frames::Action;
use numbers::{addresses, cells};
use tables::search;
use tables::search::Want;
use tables::state::{Side, Tables};

// ── a side's map and TLB ──
pub fn set_map_row(t: &mut Tables, side: Side, at: usize, word: u32)
    ensures { t.new ≡ with_walk side t.old (set (map_of side t.old) at word) (tlb_of side t.old) }
{
    match side {
        Side::Cpu => cells::set(&mut t.map, at, word),
        Side::Iommu => cells::set(&mut t.io_map, at, word),
    }
}

pub fn set_tlb_row(t: &mut Tables, side: Side, at: usize, word: u32)
    ensures { t.new ≡ with_walk side t.old (map_of side t.old) (set (tlb_of side t.old) at word) }
{
    match side {
        Side::Cpu => cells::set(&mut t.tlb, at, word),
        Side::Iommu => cells::set(&mut t.io_tlb, at, word),
    }
}

// The rows that are looked for, from a place on.
pub fn wipe_map(t: &mut Tables, side: Side, from: usize, want: Want)
    ensures { t.new ≡ with_walk side t.old (wipe_from W (meets want) from (map_of side t.old)) (tlb_of side t.old) }
{
    match side {
        Side::Cpu => search::wipe_from(&mut t.map, from, want),
        Side::Iommu => search::wipe_from(&mut t.io_map, from, want),
    }
}

pub fn wipe_tlb(t: &mut Tables, side: Side, from: usize, want: Want)
    ensures { t.new ≡ with_walk side t.old (map_of side t.old) (wipe_from W (meets want) from (tlb_of side t.old)) }
{
    match side {
        Side::Cpu => search::wipe_from(&mut t.tlb, from, want),
        Side::Iommu => search::wipe_from(&mut t.io_tlb, from, want),
    }
}

// The guest's entries for the guest page leave the side's TLB, on every unit.
pub fn invalidate(t: &mut Tables, side: Side, g: u8, v: u16)
    ensures { t.new ≡ with_walk side t.old (map_of side t.old) (invalidated g v (tlb_of side t.old)) }
{
    match side {
        Side::Cpu => search::invalidate(&mut t.tlb, g, v),
        Side::Iommu => search::invalidate(&mut t.io_tlb, g, v),
    }
}

// ── who holds or runs ──
// The number of a guest among those who hold or run; of one out of range nobody's.
pub fn holder(g: u8) -> u8
    ensures { result ≡ who_is g }
{
    if g < Action::GUESTS {
        Tables::GUEST + g
    } else {
        Tables::NOBODY
    }
}

// The page's holder on a side.
pub fn set_holder(t: &mut Tables, side: Side, p: u16, who: u8)
    ensures { t.new ≡ with_held side t.old (set (held_on side t.old) p who) }
{
    match side {
        Side::Cpu => cells::set(&mut t.holder, p as usize, who),
        Side::Iommu => cells::set(&mut t.dma, p as usize, who),
    }
}

// ── words of memory ──
// All words of a page become 0.
pub fn clear_page(mem: &mut [u64], p: u16)
    ensures { mem.new ≡ clear_page p mem.old }
{
    for n in 0..Action::PAGE_WORDS {
        cells::set(mem, addresses::word_of(p, n), 0);
    }
}
