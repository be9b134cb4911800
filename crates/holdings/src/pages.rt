// Pages: who holds them and who shares them. Kinds 12 to 15, 20 and 21.

ghost use Rattle.std.specs.Prelude.{◌≡◌, List, ℕ};
ghost use Rattle.tables.specs.State.{by_side};
ghost use Rattle.rules.specs.Actions.{acted};
ghost use Rattle.rules.specs.Actions.Op.{AssignPage, ReclaimPage, SharePage, UnsharePage, IommuAssignPage, IommuReclaimPage};
ghost use Rattle.edits.specs.Edits.{after};

use crate::Holdings;
use edits::changes;
use edits::out::Out;
use numbers::cells;
use tables::search;
use tables::search::Want;
use tables::state::{Side, Tables};
use verdicts::pages;

impl Holdings {
    // 12: all words of the page become 0.
    pub fn assign_page(mut self, g: u8, p: u16, mem: &mut [u64]) -> Out
        ensures { after result mem.new ≡ acted self.tables (AssignPage g p) mem.old }
    {
        if let Err(refusal) = pages::assign_page(self.tables.lend(), g, p) {
            return Out::refused(self.tables, refusal);
        }
        changes::clear_page(mem, p);
        changes::set_holder(&mut self.tables, Side::Cpu, p, changes::holder(g));
        Out::accepted(self.tables)
    }

    // 13, 21: the hypervisor then holds it for CPU, nobody for DMA; words stay.
    #[tactic(auto, using(edits::proofs::Answered::accepted_out))]
    pub fn reclaim_page(mut self, side: Side, g: u8, p: u16) -> Out
        ensures { (ws : List ℕ) → after result ws ≡ acted self.tables (by_side side (ReclaimPage g p) (IommuReclaimPage g p)) ws }
    {
        if let Err(refusal) = pages::reclaim_page(self.tables.lend(), side, g, p) {
            return Out::refused(self.tables, refusal);
        }
        let who = match side {
            Side::Cpu => Tables::HYPERVISOR,
            Side::Iommu => Tables::NOBODY,
        };
        changes::set_holder(&mut self.tables, side, p, who);
        Out::accepted(self.tables)
    }

    // 14: a standing pair, in either order, stays as it is.
    pub fn share_page(mut self, l: u8, r: u8, p: u16) -> Out
        ensures { (ws : List ℕ) → after result ws ≡ acted self.tables (SharePage l r p) ws }
    {
        match pages::share_page(self.tables.lend(), l, r, p) {
            Err(refusal) => Out::refused(self.tables, refusal),
            Ok(None) => Out::accepted(self.tables),
            Ok(Some(row)) => {
                cells::set(&mut self.tables.pairs, row.at, row.word);
                Out::accepted(self.tables)
            }
        }
    }

    // 15
    pub fn unshare_page(mut self, l: u8, r: u8, p: u16) -> Out
        ensures { (ws : List ℕ) → after result ws ≡ acted self.tables (UnsharePage l r p) ws }
    {
        match pages::unshare_page(self.tables.lend(), l, r, p) {
            Err(refusal) => Out::refused(self.tables, refusal),
            Ok(at) => {
                search::wipe_from(&mut self.tables.pairs, at, Want::Pair(l, r, p));
                Out::accepted(self.tables)
            }
        }
    }

    // 20: the words become 0 if the page is newly DMA-held and the guest is not its CPU holder.
    pub fn iommu_assign_page(mut self, g: u8, p: u16, mem: &mut [u64]) -> Out
        ensures { after result mem.new ≡ acted self.tables (IommuAssignPage g p) mem.old }
    {
        if let Err(refusal) = pages::iommu_assign_page(self.tables.lend(), g, p) {
            return Out::refused(self.tables, refusal);
        }
        let keep = pages::held_already(self.tables.lend(), g, p);
        changes::set_holder(&mut self.tables, Side::Iommu, p, changes::holder(g));
        if keep {
            return Out::accepted(self.tables);
        }
        changes::clear_page(mem, p);
        Out::accepted(self.tables)
    }
}
