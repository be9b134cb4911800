// Maps and TLBs, of CPUs and of the IOMMU alike: kinds 16, 17, 1a, 1b and 22 to 25.
#![tactic(auto, using(numbers::proofs::Bools::not_is, numbers::proofs::Bools::and_asks, numbers::proofs::Bools::or_asks), unfolding(numbers::specs::Rules::least, access::specs::Lent::number, numbers::specs::Sizes::guests, numbers::specs::Sizes::gpages, numbers::specs::Sizes::pages, numbers::specs::Sizes::accesses, numbers::specs::Sizes::units))]

ghost use Rattle.std.specs.Prelude.{◌≡◌, IfOk};
ghost use Rattle.numbers.specs.Frames.{off};
ghost use Rattle.numbers.specs.Refusals.{numbered};
ghost use Rattle.numbers.specs.Sizes.{guests, pages, gpages, accesses};
ghost use Rattle.numbers.specs.Tests.{◌or◌};
ghost use Rattle.numbers.specs.Search.{first};
ghost use Rattle.numbers.specs.Entries.{key_of, entry, at_unit};
ghost use Rattle.tables.specs.Lent.{tables_of};
ghost use Rattle.tables.specs.State.{map_of, tlb_of};
ghost use Rattle.tables.specs.Table.{hit, find, seat};
ghost use Rattle.tables.specs.Wants.{W, has_key};
ghost use Rattle.rules.specs.Actions.Op.{Map, Unmap, Fill, Drop};
ghost use Rattle.access.specs.Lent.{number};

use crate::places;
use access::parts;
use numbers::entries;
use numbers::frames::Action;
use numbers::refusals::Refusal;
use tables::search::Want;
use tables::state::{Lent, Side};

// 4, of an entry.
fn far(g: u8, v: u16, p: u16, x: u8) -> bool
    ensures { result ≡ (off g guests or off v gpages or off p pages or off x accesses) }
{
    Action::GUESTS <= g || Action::GPAGES <= v || Action::PAGES <= p || Action::ACCESSES <= x
}

// A row, and where it goes.
#[derive(Clone, Copy, Debug, PartialEq, Eq)]
pub struct Row {
    pub at: usize,
    pub word: u32,
}

// 16, 22: the entry, and where it goes.
pub fn map(t: Lent, side: Side, g: u8, v: u16, p: u16, x: u8) -> Result<Row, Refusal>
    ensures number { numbered result ≡ number (tables_of t.entry) (Map side g v p x) }
    ensures row { IfOk result (λ row. (row.at ≡ seat W (has_key (key_of 0 g v)) (map_of side (tables_of t.entry)))
        × (row.word ≡ entry 0 g v p x)) }
{
    Refusal::OutOfRange.when(far(g, v, p, x))?;
    Refusal::AbsentGuest.when(parts::absent(t.present, g))?;
    Refusal::NotHeld.when(!t.may_reach(side, g, p))?;
    let at = places::seated(t.map_of(side), entries::key_of(0, g, v))?;
    let word = entries::entry(0, g, v, p, x);
    Ok(Row { at, word })
}

// 17, 23: where the entry stands.
pub fn unmap(t: Lent, side: Side, g: u8, v: u16) -> Result<usize, Refusal>
    ensures number { numbered result ≡ number (tables_of t.entry) (Unmap side g v) }
    ensures at { IfOk result (λ at. at ≡ first (hit W (has_key (key_of 0 g v))) (map_of side (tables_of t.entry))) }
{
    Refusal::OutOfRange.when(Action::GUESTS <= g || Action::GPAGES <= v)?;
    Refusal::AbsentGuest.when(parts::absent(t.present, g))?;
    places::standing(t.map_of(side), Want::Key(entries::key_of(0, g, v)))
}

// 1a, 24: the copy of the map's entry.
pub fn fill(t: Lent, side: Side, g: u8, u: u8, v: u16) -> Result<Row, Refusal>
    ensures number { numbered result ≡ number (tables_of t.entry) (Fill side g u v) }
    ensures row { IfOk result (λ row. (row.at ≡ seat W (has_key (key_of u g v)) (tlb_of side (tables_of t.entry)))
        × (row.word ≡ at_unit u (find W (has_key (key_of 0 g v)) (map_of side (tables_of t.entry))))) }
{
    let far = Action::GUESTS <= g || Action::UNITS <= u || Action::GPAGES <= v;
    Refusal::OutOfRange.when(far)?;
    Refusal::AbsentGuest.when(parts::absent(t.present, g))?;
    let home = places::home(t.map_of(side), entries::key_of(0, g, v))?;
    let at = places::seated(t.tlb_of(side), entries::key_of(u, g, v))?;
    let word = entries::at_unit(u, home);
    Ok(Row { at, word })
}

// 1b, 25: where the copy stands.
pub fn drop(t: Lent, side: Side, g: u8, u: u8, v: u16) -> Result<usize, Refusal>
    ensures number { numbered result ≡ number (tables_of t.entry) (Drop side g u v) }
    ensures at { IfOk result (λ at. at ≡ first (hit W (has_key (key_of u g v))) (tlb_of side (tables_of t.entry))) }
{
    let far = Action::GUESTS <= g || Action::UNITS <= u || Action::GPAGES <= v;
    Refusal::OutOfRange.when(far)?;
    Refusal::AbsentGuest.when(parts::absent(t.present, g))?;
    places::standing(t.tlb_of(side), Want::Key(entries::key_of(u, g, v)))
}
