// Maps and TLBs, of CPUs and of the IOMMU alike: kinds 16, 17, 1a, 1b and 22 to 25.
ghost use Rattle.std.specs.Prelude.{◌≡◌, List, ℕ};
ghost use Rattle.rules.specs.Actions.{acted};
ghost use Rattle.rules.specs.Actions.Op.{Map, Unmap, Fill, Drop};
ghost use Rattle.edits.specs.Edits.{after};

use crate::Walks;
use edits::changes;
use edits::out::Out;
use numbers::entries;
use tables::search::Want;
use tables::state::Side;
use verdicts::walks;

impl Walks {
    // 16, 22: the guest's entries for the guest page leave the side's TLB, on all its units.
    pub fn map(mut self, side: Side, g: u8, v: u16, p: u16, x: u8) -> Out
        ensures { (ws : List ℕ) → after result ws ≡ acted self.tables (Map side g v p x) ws }
    {
        match walks::map(self.tables.lend(), side, g, v, p, x) {
            Err(refusal) => Out::refused(self.tables, refusal),
            Ok(row) => {
                changes::set_map_row(&mut self.tables, side, row.at, row.word);
                changes::invalidate(&mut self.tables, side, g, v);
                Out::accepted(self.tables)
            }
        }
    }

    // 17, 23
    pub fn unmap(mut self, side: Side, g: u8, v: u16) -> Out
        ensures { (ws : List ℕ) → after result ws ≡ acted self.tables (Unmap side g v) ws }
    {
        match walks::unmap(self.tables.lend(), side, g, v) {
            Err(refusal) => Out::refused(self.tables, refusal),
            Ok(at) => {
                let key = Want::Key(entries::key_of(0, g, v));
                changes::wipe_map(&mut self.tables, side, at, key);
                changes::invalidate(&mut self.tables, side, g, v);
                Out::accepted(self.tables)
            }
        }
    }

    // 1a, 24: the map's entry, copied.
    pub fn fill(mut self, side: Side, g: u8, u: u8, v: u16) -> Out
        ensures { (ws : List ℕ) → after result ws ≡ acted self.tables (Fill side g u v) ws }
    {
        match walks::fill(self.tables.lend(), side, g, u, v) {
            Err(refusal) => Out::refused(self.tables, refusal),
            Ok(row) => {
                changes::set_tlb_row(&mut self.tables, side, row.at, row.word);
                Out::accepted(self.tables)
            }
        }
    }

    // 1b, 25
    pub fn drop(mut self, side: Side, g: u8, u: u8, v: u16) -> Out
        ensures { (ws : List ℕ) → after result ws ≡ acted self.tables (Drop side g u v) ws }
    {
        match walks::drop(self.tables.lend(), side, g, u, v) {
            Err(refusal) => Out::refused(self.tables, refusal),
            Ok(at) => {
                let key = Want::Key(entries::key_of(u, g, v));
                changes::wipe_tlb(&mut self.tables, side, at, key);
                Out::accepted(self.tables)
            }
        }
    }
}
