// The tables: one flat struct of number arrays, by value. Who holds or runs is a number too: nobody, the hypervisor, or a guest
// counted from `Tables::GUEST` on.
#![tactic(auto, using(numbers::proofs::Bools::and_asks, numbers::proofs::Bools::or_asks), unfolding(numbers::specs::Tests::isnt, crate::specs::State::reach, crate::specs::State::empty, crate::specs::State::bare, numbers::specs::Sizes::map_room, numbers::specs::Sizes::tlb_room, numbers::specs::Sizes::pair_room, numbers::specs::Sizes::pages, numbers::specs::Sizes::guests, numbers::specs::Sizes::units))]

ghost use Rattle.std.specs.Prelude.{◌≡◌, true, false, eqb, IfSome, IfNone};
ghost use Rattle.tables.specs.State.{guest, a_guest, guest_of, lookup, map_of, tlb_of, held_on, may_reach, page_is_quiescent, iommu_page_is_quiescent, empty, boot};
ghost use Rattle.tables.specs.Lent.{tables_of};

use crate::search;
use crate::search::Want;
use numbers::frames::Action;
use numbers::{cells, entries};

#[derive(Clone, Copy, Debug, PartialEq, Eq)]
pub struct Tables {
    // stage-2 entries, and the CPUs' copies of them
    pub map: [u32; Tables::MAP_ROOM],
    pub tlb: [u32; Tables::TLB_ROOM],
    // the same for the IOMMU and its streams
    pub io_map: [u32; Tables::MAP_ROOM],
    pub io_tlb: [u32; Tables::TLB_ROOM],
    pub pairs: [u32; Tables::PAIR_ROOM],
    // who holds each page for CPU and for DMA
    pub holder: [u8; Tables::PAGES],
    pub dma: [u8; Tables::PAGES],
    pub region: [bool; Tables::PAGES],
    pub present: [bool; Tables::GUESTS],
    // which guest each CPU runs
    pub running: [u8; Tables::UNITS],
}

// The two sides of the machine, alike but for what a guest may reach.
#[derive(Clone, Copy, Debug, PartialEq, Eq)]
pub enum Side {
    Cpu,
    Iommu,
}

// The tables, or what a caller has of them, lent for reading.
#[derive(Clone, Copy, Debug, PartialEq, Eq)]
pub struct Lent<'a> {
    pub map: &'a [u32],
    pub tlb: &'a [u32],
    pub io_map: &'a [u32],
    pub io_tlb: &'a [u32],
    pub pairs: &'a [u32],
    pub holder: &'a [u8],
    pub dma: &'a [u8],
    pub region: &'a [bool],
    pub present: &'a [bool],
    pub running: &'a [u8],
}

// ── who holds or runs, as a number ──
// Whether a number among holders is the guest's.
pub fn is_guest(who: u8, g: u8) -> bool
    ensures { result ≡ eqb who (guest g) }
{
    (who as u16) == (Tables::GUEST as u16) + (g as u16)
}

// Which guest a holder's number says.
pub fn guest_of(who: u8) -> Option<u8>
    ensures some { IfSome result (λ g. (g ≡ guest_of who) × (a_guest who ≡ true)) }
    ensures none { IfNone result (a_guest who ≡ false) }
{
    who.checked_sub(Tables::GUEST)
}

// ── translation ──
// A TLB hit comes before the map.
pub fn lookup(map: &[u32], tlb: &[u32], unit: u8, guest: u8, gpage: u16) -> Option<u32>
    ensures { result ≡ lookup map.now tlb.now unit guest gpage }
{
    match search::find(tlb, entries::key_of(unit, guest, gpage)) {
        Some(cached) => Some(cached),
        None => search::find(map, entries::key_of(0, guest, gpage)),
    }
}

impl<'a> Lent<'a> {
    pub fn map_of(self, side: Side) -> &'a [u32]
        ensures { result.now ≡ map_of side (tables_of self.entry) }
    {
        match side {
            Side::Cpu => self.map,
            Side::Iommu => self.io_map,
        }
    }

    pub fn tlb_of(self, side: Side) -> &'a [u32]
        ensures { result.now ≡ tlb_of side (tables_of self.entry) }
    {
        match side {
            Side::Cpu => self.tlb,
            Side::Iommu => self.io_tlb,
        }
    }

    // Who holds each page on a side.
    pub fn held_on(self, side: Side) -> &'a [u8]
        ensures { result.now ≡ held_on side (tables_of self.entry) }
    {
        match side {
            Side::Cpu => self.holder,
            Side::Iommu => self.dma,
        }
    }

    // May a guest's entries on a side lead to a page: the side's holder may, and who shares it, or whoever asks for the region.
    pub fn may_reach(self, side: Side, guest: u8, page: u16) -> bool
        ensures { result ≡ may_reach side (tables_of self.entry) guest page }
    {
        let own = is_guest(cells::get_or(self.held_on(side), page as usize, 0), guest);
        match side {
            Side::Cpu => own || search::has(self.pairs, Want::Shared(guest, page)),
            Side::Iommu => own || cells::get_or(self.region, page as usize, false),
        }
    }

    // ── quiescence ──
    // No entry of the side leads to the page.
    fn no_entry_leads(self, side: Side, page: u16) -> bool
        ensures { result ≡ iommu_page_is_quiescent (map_of side (tables_of self.entry)) (tlb_of side (tables_of self.entry)) page }
    {
        !search::has(self.map_of(side), Want::Page(page))
            && !search::has(self.tlb_of(side), Want::Page(page))
    }

    // No IOMMU entry leads to the page.
    pub fn iommu_page_is_quiescent(self, page: u16) -> bool
        ensures { result ≡ iommu_page_is_quiescent self.entry.io_map.now self.entry.io_tlb.now page }
    {
        self.no_entry_leads(Side::Iommu, page)
    }

    // No stage-2 entry leads to the page and no pair names it.
    pub fn page_is_quiescent(self, page: u16) -> bool
        ensures { result ≡ page_is_quiescent self.entry.map.now self.entry.tlb.now self.entry.pairs.now page }
    {
        self.no_entry_leads(Side::Cpu, page) && !search::has(self.pairs, Want::Page(page))
    }
}

impl Tables {
    pub const GUESTS: usize = Action::GUESTS as usize;

    pub const UNITS: usize = Action::UNITS as usize;

    pub const PAGES: usize = Action::PAGES as usize;

    pub const MAP_ROOM: usize = 64;

    pub const TLB_ROOM: usize = 32;

    pub const PAIR_ROOM: usize = 16;

    // Who holds or runs: guest g is GUEST + g.
    pub const NOBODY: u8 = 0;

    pub const HYPERVISOR: u8 = 1;

    pub const GUEST: u8 = 2;

    // Lent whole.
    pub fn lend(&self) -> Lent
        ensures { tables_of result ≡ self.now }
    {
        Lent {
            map: &self.map,
            tlb: &self.tlb,
            io_map: &self.io_map,
            io_tlb: &self.io_tlb,
            pairs: &self.pairs,
            holder: &self.holder,
            dma: &self.dma,
            region: &self.region,
            present: &self.present,
            running: &self.running,
        }
    }

    pub fn empty() -> Tables
        ensures { result ≡ empty }
    {
        Tables {
            map: [0; Tables::MAP_ROOM],
            tlb: [0; Tables::TLB_ROOM],
            io_map: [0; Tables::MAP_ROOM],
            io_tlb: [0; Tables::TLB_ROOM],
            pairs: [0; Tables::PAIR_ROOM],
            holder: [Tables::NOBODY; Tables::PAGES],
            dma: [Tables::NOBODY; Tables::PAGES],
            region: [false; Tables::PAGES],
            present: [false; Tables::GUESTS],
            running: [Tables::NOBODY; Tables::UNITS],
        }
    }

    // The hypervisor's pages and the region's: bit n is page n.
    pub fn boot(hypervisor: u64, region: u64) -> Tables
        ensures { result ≡ boot hypervisor region }
    {
        let mut holders = [Tables::NOBODY; Tables::PAGES];
        let mut shared = [false; Tables::PAGES];
        let mut h = hypervisor;
        let mut r = region;
        for p in 0..Tables::PAGES {
            // a bit is the holder's number: 1 the hypervisor, 0 nobody
            holders[p] = (h % 2) as u8;
            shared[p] = r % 2 == 1;
            h = h / 2;
            r = r / 2;
        }
        let mut t = Tables::empty();
        t.holder = holders;
        t.region = shared;
        t
    }
}
