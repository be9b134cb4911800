// Kinds 01 to 05 on lent tables, which they leave as they are: no table is moved for them.
#![tactic(auto, using(numbers::proofs::Bools::not_is, numbers::proofs::Bools::or_asks, crate::proofs::Answers::refuses_served), unfolding(numbers::specs::Rules::least, numbers::specs::Sizes::guests, numbers::specs::Sizes::units, numbers::specs::Sizes::gpages, numbers::specs::Sizes::page_words, crate::specs::Lent::number, crate::specs::Lent::served, rules::specs::Actions::next, rules::specs::Actions::does))]

ghost use Rattle.std.specs.Prelude.{◌≡◌, List, ℕ, Some, IfOk, IfErr};
ghost use Rattle.numbers.specs.Answers.{seen_of};
ghost use Rattle.numbers.specs.Refusals.{number_of};
ghost use Rattle.numbers.specs.Rules.{Rules, least};
ghost use Rattle.tables.specs.Lent.{tables_of};
ghost use Rattle.rules.specs.Actions.{elsewhere, seen, word_at};
ghost use Rattle.rules.specs.Actions.Op.{Read, Write, HyperCall};
ghost use Rattle.access.specs.Lent.{served, left, guest_op, access_rules};

use crate::parts;
use numbers::answers::Seen;
use numbers::frames::Action;
use numbers::refusals::Refusal;
use numbers::{addresses, cells, entries};
use tables::state;
use tables::state::{Lent, Side};

// Who asks, on which unit, for which word address.
#[derive(Clone, Copy, Debug, PartialEq, Eq)]
pub struct Ask {
    pub guest: u8,
    pub unit: u8,
    pub address: u16,
}

// 8: the CPU does not run the guest. A stream acts in any guest's name.
fn elsewhere(t: Lent, side: Side, g: u8, u: u8) -> bool
    ensures { result ≡ elsewhere side (tables_of t.entry) u g }
{
    match side {
        Side::Cpu => !state::is_guest(cells::get_or(t.running, u as usize, 0), g),
        Side::Iommu => false,
    }
}

// What the side's TLB or map has for an address: 4, 6, 8 and 9, which come before what the entry allows.
fn translation(t: Lent, side: Side, ask: Ask) -> Result<u32, Refusal>
    ensures ok { (later : Rules) → IfOk result (λ _. least (access_rules side (tables_of t.entry) ask later) ≡ least later) }
    ensures word { IfOk result (λ word. seen side (tables_of t.entry) ask.guest ask.unit ask.address ≡ Some word) }
    ensures err { (later : Rules) → IfErr result (λ e. number_of e ≡ least (access_rules side (tables_of t.entry) ask later)) }
{
    let g = ask.guest;
    let u = ask.unit;
    let a = ask.address;
    let last = Action::GPAGES * Action::PAGE_WORDS;
    Refusal::OutOfRange.when(Action::GUESTS <= g || Action::UNITS <= u || last <= a)?;
    Refusal::AbsentGuest.when(parts::absent(t.present, g))?;
    Refusal::Elsewhere.when(elsewhere(t, side, g, u))?;
    let page = addresses::page_of(a);
    let Some(word) = state::lookup(t.map_of(side), t.tlb_of(side), u, g, page) else {
        return Err(Refusal::NoTranslation);
    };
    Ok(word)
}

// The word of memory that a translation leads to.
fn place(word: u32, address: u16) -> usize
    ensures { result ≡ word_at (Some word) address }
{
    addresses::word_of(entries::page_in(word), addresses::offset_of(address))
}

// 01 Read, 04 DmaRead
pub fn read(t: Lent, side: Side, ask: Ask, mem: &[u64]) -> Result<u64, Refusal>
    ensures { left (seen_of result) mem.now ≡ served (tables_of t.entry) (Read side ask.guest ask.unit ask.address) mem.now }
{
    let word = translation(t, side, ask)?;
    Refusal::NotAllowed.when(!entries::readable(word))?;
    Ok(cells::get_or(mem, place(word, ask.address), 0))
}

// 02 Write, 05 DmaWrite: no word is handed back.
pub fn write(t: Lent, side: Side, ask: Ask, word: u64, mem: &mut [u64]) -> Result<u64, Refusal>
    ensures { left (seen_of result) mem.new ≡ served (tables_of t.entry) (Write side ask.guest ask.unit ask.address word) mem.old }
{
    let entry = translation(t, side, ask)?;
    Refusal::NotAllowed.when(!entries::writable(entry))?;
    cells::set(mem, place(entry, ask.address), word);
    Ok(0)
}

// 03 HyperCall: it changes nothing, whatever its word.
pub fn hyper_call(t: Lent, g: u8, u: u8, word: u64) -> Result<u64, Refusal>
    ensures { (ws : List ℕ) → left (seen_of result) ws ≡ served (tables_of t.entry) (HyperCall g u word) ws }
{
    Refusal::OutOfRange.when(Action::GUESTS <= g || Action::UNITS <= u)?;
    Refusal::AbsentGuest.when(parts::absent(t.present, g))?;
    Refusal::Elsewhere.when(elsewhere(t, Side::Cpu, g, u))?;
    Ok(0)
}

// The kind chooses. Callers hand over kinds 01 to 05; any other byte is served as 03. Inlined where it is called: there it is known how long the
// tables are that are lent.
#[inline(always)]
pub fn by_kind(t: Lent, a: Action, mem: &mut [u64]) -> Seen
    ensures { left result mem.new ≡ served (tables_of t.entry) (guest_op a) mem.old }
{
    let kind = a.kind;
    let ask = Ask {
        guest: a.guest,
        unit: a.second,
        address: a.address,
    };
    let answer = match kind {
        0x01 => read(t, Side::Cpu, ask, mem),
        0x02 => write(t, Side::Cpu, ask, a.word, mem),
        0x04 => read(t, Side::Iommu, ask, mem),
        0x05 => write(t, Side::Iommu, ask, a.word, mem),
        _ => hyper_call(t, a.guest, a.second, a.word),
    };
    Seen::from(answer)
}
