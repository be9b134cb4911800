// Who is named in parts of the tables.
ghost use Rattle.std.specs.Prelude.{◌≡◌, false, eqb, get_or};
ghost use Rattle.numbers.specs.Tests.{isnt};
ghost use Rattle.tables.specs.State.{guest};
ghost use Rattle.std.specs.List.{list_any};
ghost use Rattle.rules.specs.Actions.{another, named};

use numbers::cells;
use tables::state;
use tables::state::Tables;

#[tactic(auto, using(numbers::proofs::Bools::not_is))]
pub fn absent(present: &[bool], g: u8) -> bool
    ensures { result ≡ isnt (get_or present.now g false) }
{
    !cells::get_or(present, g as usize, false)
}

// The guest holds the page.
pub fn holds(held: &[u8], g: u8, p: u16) -> bool
    ensures { result ≡ eqb (get_or held.now p 0) (guest g) }
{
    state::is_guest(cells::get_or(held, p as usize, 0), g)
}

// A guest holds the page, and it is another one.
#[tactic(auto, using(numbers::proofs::Bools::not_is, numbers::proofs::Bools::and_asks), unfolding(rules::specs::Actions::another))]
pub fn another(held: &[u8], g: u8, p: u16) -> bool
    ensures { result ≡ another g (get_or held.now p 0) }
{
    let h = cells::get_or(held, p as usize, 0);
    (Tables::GUEST <= h) & !state::is_guest(h, g)
}

// Some place of a list of holders names the guest.
#[tactic(auto, using(crate::proofs::PartLaws::named_any))]
pub fn named(list: &[u8], g: u8) -> bool
    ensures { result ≡ named (guest g) list.now }
{
    any_is(list, g)
}

// The same in the library's word, as the check sees what a chain answers.
fn any_is(list: &[u8], g: u8) -> bool
    ensures { result ≡ list_any (λ who. eqb who (guest g)) list.now }
{
    list.iter().any(|who| state::is_guest(*who, g))
}
