// Guests and CPUs: kinds 10, 11, 18 and 19.
#![tactic(auto, using(numbers::proofs::Bools::not_is, numbers::proofs::Bools::and_asks, numbers::proofs::Bools::or_asks), unfolding(numbers::specs::Rules::least, access::specs::Lent::number, numbers::specs::Sizes::guests, numbers::specs::Sizes::units))]

ghost use Rattle.std.specs.Prelude.{◌≡◌};
ghost use Rattle.numbers.specs.Refusals.{numbered};
ghost use Rattle.tables.specs.Lent.{tables_of};
ghost use Rattle.tables.specs.declared.state.Tables.{Tables};
ghost use Rattle.rules.specs.Actions.{in_use};
ghost use Rattle.rules.specs.Actions.Op.{AddVm, RemoveVm, ContextSwitch, Idle};
ghost use Rattle.access.specs.Lent.{number};

use access::parts;
use numbers::cells;
use numbers::frames::Action;
use numbers::refusals::Refusal;
use tables::search;
use tables::search::Want;
use tables::state::Lent;

// 10
pub fn add_vm(t: Lent, g: u8) -> Result<(), Refusal>
    ensures { numbered result ≡ number (tables_of t.entry) (AddVm g) }
{
    Refusal::OutOfRange.when(Action::GUESTS <= g)?;
    Refusal::PresentGuest.when(cells::get_or(t.present, g as usize, false))
}

// Something of the tables names the guest.
fn in_use(t: Lent, g: u8) -> bool
    ensures { result ≡ in_use (tables_of t.entry) g }
{
    parts::named(t.holder, g)
        || parts::named(t.dma, g)
        || search::has(t.map, Want::Guest(g))
        || search::has(t.io_map, Want::Guest(g))
        || search::has(t.tlb, Want::Guest(g))
        || search::has(t.io_tlb, Want::Guest(g))
        || search::has(t.pairs, Want::End(g))
        || parts::named(t.running, g)
}

// 11
pub fn remove_vm(t: Lent, g: u8) -> Result<(), Refusal>
    ensures { numbered result ≡ number (tables_of t.entry) (RemoveVm g) }
{
    Refusal::OutOfRange.when(Action::GUESTS <= g)?;
    Refusal::AbsentGuest.when(parts::absent(t.present, g))?;
    Refusal::StillInUse.when(in_use(t, g))
}

// 18
pub fn context_switch(t: Lent, g: u8, u: u8) -> Result<(), Refusal>
    ensures { numbered result ≡ number (tables_of t.entry) (ContextSwitch g u) }
{
    Refusal::OutOfRange.when(Action::GUESTS <= g || Action::UNITS <= u)?;
    Refusal::AbsentGuest.when(parts::absent(t.present, g))
}

// 19
pub fn idle(u: u8) -> Result<(), Refusal>
    ensures { (m : Tables) → numbered result ≡ number m (Idle u) }
{
    Refusal::OutOfRange.when(Action::UNITS <= u)
}
