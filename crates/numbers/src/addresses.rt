// The page and the offset of a word address, guest or physical, and the word of a page and an offset.
#![tactic(auto, unfolding(crate::specs::Addresses::page_of, crate::specs::Addresses::offset_of, crate::specs::Addresses::word_of, crate::specs::Sizes::page_words))]

ghost use Rattle.std.specs.Prelude.{◌≡◌};
ghost use Rattle.numbers.specs.Addresses.{page_of, offset_of, word_of};

use crate::frames::Action;

pub fn page_of(word: u16) -> u16
    ensures { result ≡ page_of word }
{
    word / Action::PAGE_WORDS
}

pub fn offset_of(word: u16) -> u16
    ensures { result ≡ offset_of word }
{
    word % Action::PAGE_WORDS
}

pub fn word_of(page: u16, offset: u16) -> usize
    ensures { result ≡ word_of page offset }
{
    (page as usize) * (Action::PAGE_WORDS as usize) + (offset as usize)
}
