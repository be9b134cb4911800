// One row of a table: is it one that the table may have, and what stands under the same key.
ghost use Rattle.std.specs.Prelude.{◌≡◌};
ghost use Rattle.numbers.specs.Entries.{key_in, left_in, right_in, page_in};
ghost use Rattle.order.specs.Sides.{side_row};
ghost use Rattle.tables.specs.Lent.{tables_of};
ghost use Rattle.tables.specs.Wf.{entry_ok, pair_ok};
ghost use Rattle.tables.specs.declared.search.Want.TheVariants.{Key, Pair};

use numbers::frames::Action;
use numbers::{cells, entries};
use tables::search::Want;
use tables::state::{Lent, Side};

// An entry whose numbers are in range.
#[tactic(auto, using(numbers::proofs::Bools::and_asks), unfolding(tables::specs::Wf::entry_ok, numbers::specs::Sizes::units, numbers::specs::Sizes::guests, numbers::specs::Sizes::gpages, numbers::specs::Sizes::pages, numbers::specs::Sizes::accesses))]
pub fn entry_ok(word: u32) -> bool
    ensures { result ≡ entry_ok word }
{
    entries::tag_in(word) == 1
        && entries::unit_in(word) < Action::UNITS
        && entries::guest_in(word) < Action::GUESTS
        && entries::gpage_in(word) < Action::GPAGES
        && entries::page_in(word) < Action::PAGES
        && entries::access_in(word) < Action::ACCESSES
}

// An entry of a side's map: its guest is present and may reach its page.
#[tactic(auto, using(numbers::proofs::Bools::and_asks), unfolding(tables::specs::Wf::map_row_ok))]
pub fn map_row_ok(t: Lent, side: Side, word: u32) -> bool
    ensures { result ≡ side_row side (tables_of t.entry) word }
{
    let guest = entries::guest_in(word);
    entry_ok(word)
        && entries::unit_in(word) == 0
        && cells::get_or(t.present, guest as usize, false)
        && t.may_reach(side, guest, entries::page_in(word))
}

#[tactic(auto, using(numbers::proofs::Bools::and_asks), unfolding(numbers::specs::Tests::isnt, tables::specs::Wf::pair_ok, numbers::specs::Sizes::guests, numbers::specs::Sizes::pages))]
pub fn pair_ok(present: &[bool], word: u32) -> bool
    ensures { result ≡ pair_ok present.now word }
{
    let left = entries::left_in(word);
    let right = entries::right_in(word);
    entries::pair_tag_in(word) == 1
        && left < Action::GUESTS
        && right < Action::GUESTS
        && entries::page_in(word) < Action::PAGES
        && entries::access_in(word) == 0
        && left != right
        && cells::get_or(present, left as usize, false)
        && cells::get_or(present, right as usize, false)
}

// What stands under the same key as an entry.
pub fn same_entry(word: u32) -> Want
    ensures { result ≡ Key (key_in word) }
{
    Want::Key(entries::key_in(word))
}

// What stands under the same key as a pair: its ends in either order, on its page.
pub fn same_pair(word: u32) -> Want
    ensures { result ≡ Pair (left_in word) (right_in word) (page_in word) }
{
    Want::Pair(
        entries::left_in(word),
        entries::right_in(word),
        entries::page_in(word),
    )
}
