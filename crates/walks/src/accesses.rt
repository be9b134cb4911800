// Accesses: kinds 01 to 05. They change no table, so that there is nothing to store in `self`.
ghost use Rattle.std.specs.Prelude.{◌≡◌, List, ℕ};
ghost use Rattle.rules.specs.Actions.{acted};
ghost use Rattle.rules.specs.Actions.Op.{Read, Write, HyperCall};
ghost use Rattle.edits.specs.Edits.{after};

use crate::Walks;
use access::guests;
use access::guests::Ask;
use edits::out::Out;
use numbers::answers::Seen;
use tables::state::Side;

impl Walks {
    // 01, 04: the word at an address that the guest may read.
    pub fn read(self, side: Side, ask: Ask, mem: &[u64]) -> Out
        ensures { after result mem.now ≡ acted self.tables (Read side ask.guest ask.unit ask.address) mem.now }
    {
        let answer = guests::read(self.tables.lend(), side, ask, mem);
        Out::beside(self.tables, Seen::from(answer))
    }

    // 02, 05
    pub fn write(self, side: Side, ask: Ask, w: u64, mem: &mut [u64]) -> Out
        ensures { after result mem.new ≡ acted self.tables (Write side ask.guest ask.unit ask.address w) mem.old }
    {
        let answer = guests::write(self.tables.lend(), side, ask, w, mem);
        Out::beside(self.tables, Seen::from(answer))
    }

    // 03: any word.
    pub fn hyper_call(self, guest: u8, unit: u8, word: u64) -> Out
        ensures { (ws : List ℕ) → after result ws ≡ acted self.tables (HyperCall guest unit word) ws }
    {
        let answer = guests::hyper_call(self.tables.lend(), guest, unit, word);
        Out::beside(self.tables, Seen::from(answer))
    }
}
