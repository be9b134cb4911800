// The referee: one action, from its kind byte; one frame, in front of the tables.
ghost use Rattle.std.specs.Prelude.{◌≡◌, false, eqb, IfSome, IfNone};
ghost use Rattle.numbers.specs.Tests.{◌or◌, isnt};
ghost use Rattle.numbers.specs.Frames.{frame_number};
ghost use Rattle.tables.specs.Lent.{tables_of};
ghost use Rattle.rules.specs.Calls.{taken, act};
ghost use Rattle.access.specs.Lent.{left, observed};
ghost use Rattle.edits.specs.Edits.{after};
ghost use Rattle.calls.specs.Dispatch.{keeps_tables, stepped};

use access::guests;
use access::guests::Ask;
use edits::out::Out;
use holdings::Holdings;
use numbers::answers::Seen;
use numbers::frames::Action;
use numbers::refusals::Refusal;
use tables::state::{Lent, Side, Tables};
use walks::Walks;

// An `impl` for another crate's type is refused: the methods here have a struct of their own around the tables.
#[derive(Clone, Copy, Debug, PartialEq, Eq)]
pub struct Referee {
    pub tables: Tables,
}

// ── actions that leave the tables as they are: no table is moved for them ──
// Kinds 01 to 05, and of the known kinds no other.
fn keeps_tables(kind: u8) -> bool
    ensures { result ≡ keeps_tables kind }
{
    match kind {
        0x01..=0x05 => true,
        _ => false,
    }
}

// The number of its check refuses it, or it is of those kinds.
pub fn moves_nothing(check: u8, kind: u8) -> bool
    ensures { result ≡ (isnt (eqb check 0) or keeps_tables kind) }
{
    (check != 0) | keeps_tables(kind)
}

// Such an action on lent tables, and one that its frame check refuses; nothing where the tables have to be moved.
fn still(t: Lent, a: Action, mem: &mut [u64]) -> Option<Seen>
    ensures seen { IfSome result (λ seen. left seen mem.new ≡ observed (taken (tables_of t.entry) a mem.old)) }
    ensures tables { IfSome result (λ _. (taken (tables_of t.entry) a mem.old).tables ≡ tables_of t.entry) }
    ensures check { IfNone result (0 ≡ frame_number a) }
    ensures kind { IfNone result (keeps_tables a.kind ≡ false) }
    ensures memory { IfNone result (mem.new ≡ mem.old) }
{
    if let Err(refusal) = a.check() {
        return Some(Seen::refused(refusal));
    }
    if !keeps_tables(a.kind) {
        return None;
    }
    Some(guests::by_kind(t, a, mem))
}

// An action by its kind, which may move the tables.
fn step_in_place(t: &mut Tables, a: Action, mem: &mut [u64]) -> Seen
    ensures { record { seen = result; tables = t.new; memory = mem.new } ≡ stepped t.old a mem.old }
{
    let out = Referee { tables: *t }.step(a, mem);
    *t = out.tables;
    out.seen
}

// A decoded action in front of tables that stay where they are: only one that may change them has them moved, and apart from here, since a
// function pays at entry for each local that holds tables.
pub fn take_in_place(t: &mut Tables, a: Action, mem: &mut [u64]) -> Seen
    ensures { record { seen = result; tables = t.new; memory = mem.new } ≡ taken t.old a mem.old }
{
    match still(t.lend(), a, mem) {
        Some(seen) => seen,
        None => step_in_place(t, a, mem),
    }
}

impl Referee {
    // How many words memory has.
    pub const WORDS: usize = Tables::PAGES * (Action::PAGE_WORDS as usize);

    // The kind chooses the rule: by value for the guests', the hypervisor's and the IOMMU's, by range for what lies between them. Nothing is
    // checked but the kind.
    pub fn step(self, a: Action, mem: &mut [u64]) -> Out
        ensures { after result mem.new ≡ stepped self.tables a mem.old }
    {
        let tables = self.tables;
        let held = Holdings { tables };
        let walks = Walks { tables };
        let ask = Ask {
            guest: a.guest,
            unit: a.second,
            address: a.address,
        };
        let kind = a.kind;
        match kind {
            0x01 => walks.read(Side::Cpu, ask, mem),
            0x02 => walks.write(Side::Cpu, ask, a.word, mem),
            0x03 => walks.hyper_call(a.guest, a.second, a.word),
            0x04 => walks.read(Side::Iommu, ask, mem),
            0x05 => walks.write(Side::Iommu, ask, a.word, mem),
            0x10 => held.add_vm(a.guest),
            0x11 => held.remove_vm(a.guest),
            0x12 => held.assign_page(a.guest, a.page, mem),
            0x13 => held.reclaim_page(Side::Cpu, a.guest, a.page),
            0x14 => held.share_page(a.guest, a.second, a.page),
            0x15 => held.unshare_page(a.guest, a.second, a.page),
            0x16 => walks.map(Side::Cpu, a.guest, a.address, a.page, a.access),
            0x17 => walks.unmap(Side::Cpu, a.guest, a.address),
            0x18 => held.context_switch(a.guest, a.second),
            0x19 => held.idle(a.second),
            0x1a => walks.fill(Side::Cpu, a.guest, a.second, a.address),
            0x1b => walks.drop(Side::Cpu, a.guest, a.second, a.address),
            0x20 => held.iommu_assign_page(a.guest, a.page, mem),
            0x21 => held.reclaim_page(Side::Iommu, a.guest, a.page),
            0x22 => walks.map(Side::Iommu, a.guest, a.address, a.page, a.access),
            0x23 => walks.unmap(Side::Iommu, a.guest, a.address),
            0x24 => walks.fill(Side::Iommu, a.guest, a.second, a.address),
            0x25 => walks.drop(Side::Iommu, a.guest, a.second, a.address),
            0x00 | 0x06..=0x0f | 0x1c..=0x1f | 0x26..=0xff => {
                Out::refused(tables, Refusal::NotAFrame)
            }
        }
    }

    // A decoded action: the frame check, then its rule.
    pub fn take(self, a: Action, mem: &mut [u64]) -> Out
        ensures { after result mem.new ≡ taken self.tables a mem.old }
    {
        if let Err(refusal) = a.check() {
            return Out::refused(self.tables, refusal);
        }
        self.step(a, mem)
    }

    // One frame: 1 for lengths, 2 for tables that are not well formed, then as a decoded action.
    pub fn act(self, frame: &[u8], mem: &mut [u64]) -> Out
        ensures { after result mem.new ≡ act self.tables frame.now mem.old }
    {
        if (frame.len() != Action::BYTES) | (mem.len() != Referee::WORDS) {
            return Out::refused(self.tables, Refusal::Lengths);
        }
        if !order::wf(self.tables) {
            return Out::refused(self.tables, Refusal::Disorder);
        }
        self.take(Action::decode(frame), mem)
    }
}
