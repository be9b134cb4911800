// Guests and CPUs: kinds 10, 11, 18 and 19.

ghost use Rattle.std.specs.Prelude.{◌≡◌, List, ℕ};
ghost use Rattle.rules.specs.Actions.{acted};
ghost use Rattle.rules.specs.Actions.Op.{AddVm, RemoveVm, ContextSwitch, Idle};
ghost use Rattle.edits.specs.Edits.{after};

use crate::Holdings;
use edits::changes;
use edits::out::Out;
use numbers::cells;
use tables::state::Tables;
use verdicts::vms;

impl Holdings {
    // 10
    pub fn add_vm(mut self, g: u8) -> Out
        ensures { (ws : List ℕ) → after result ws ≡ acted self.tables (AddVm g) ws }
    {
        if let Err(refusal) = vms::add_vm(self.tables.lend(), g) {
            return Out::refused(self.tables, refusal);
        }
        cells::set(&mut self.tables.present, g as usize, true);
        Out::accepted(self.tables)
    }

    // 11
    pub fn remove_vm(mut self, g: u8) -> Out
        ensures { (ws : List ℕ) → after result ws ≡ acted self.tables (RemoveVm g) ws }
    {
        if let Err(refusal) = vms::remove_vm(self.tables.lend(), g) {
            return Out::refused(self.tables, refusal);
        }
        cells::set(&mut self.tables.present, g as usize, false);
        Out::accepted(self.tables)
    }

    // 18: the CPU then runs the guest.
    pub fn context_switch(mut self, g: u8, u: u8) -> Out
        ensures { (ws : List ℕ) → after result ws ≡ acted self.tables (ContextSwitch g u) ws }
    {
        if let Err(refusal) = vms::context_switch(self.tables.lend(), g, u) {
            return Out::refused(self.tables, refusal);
        }
        cells::set(&mut self.tables.running, u as usize, changes::holder(g));
        Out::accepted(self.tables)
    }

    // 19: the CPU then runs nobody.
    pub fn idle(mut self, u: u8) -> Out
        ensures { (ws : List ℕ) → after result ws ≡ acted self.tables (Idle u) ws }
    {
        if let Err(refusal) = vms::idle(u) {
            return Out::refused(self.tables, refusal);
        }
        cells::set(&mut self.tables.running, u as usize, Tables::NOBODY);
        Out::accepted(self.tables)
    }
}
