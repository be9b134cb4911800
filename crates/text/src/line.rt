// The line that is not finished yet, by value and apart from the tables.
ghost use Rattle.std.specs.Prelude.{◌≡◌, [], ◌++◌, eqb, length};
ghost use Rattle.numbers.specs.Tests.{isnt};
ghost use Rattle.text.specs.Text.{cut};
ghost use Rattle.text.specs.Line.{kept, held};
ghost use Rattle.text.specs.Walks.{heard, pushed, added};

use crate::input;
use numbers::frames::Action;

#[derive(Clone, Copy, Debug, PartialEq, Eq)]
pub struct Line {
    // how many bytes of it are kept
    pub count: usize,
    pub text: [u8; Line::MOST],
}

impl Line {
    // One more than a line of good shape has: too long stays too long.
    pub const MOST: usize = input::DIGITS + 1;

    #[tactic(auto, unfolding(crate::specs::Line::kept, crate::specs::Line::most, crate::specs::Line::padded, crate::specs::Text::line_digits, numbers::specs::Sizes::frame_bytes))]
    pub fn empty() -> Line
        ensures { result ≡ kept [] }
    {
        Line {
            count: 0,
            text: [0; Line::MOST],
        }
    }

    // The bytes that are kept.
    fn held(&self) -> &[u8]
        ensures { result.now ≡ held self.now }
    {
        &self.text[..self.count.min(Line::MOST)]
    }

    #[tactic(auto, using(std::proofs::lemmas::Bool::Decides::nat_tests), unfolding(crate::specs::Walks::pushed, crate::specs::Line::most, crate::specs::Text::line_digits, numbers::specs::Sizes::frame_bytes))]
    fn push(&mut self, b: u8)
        ensures { self.new ≡ pushed self.old b }
    {
        if self.count < Line::MOST {
            self.text[self.count] = b;
            self.count += 1;
        }
    }

    // More bytes of it, none of them a feed.
    pub fn add(mut self, more: &[u8]) -> Line
        ensures { result ≡ added self more.now }
    {
        for b in more {
            self.push(*b);
        }
        self
    }

    // What it says as it stands.
    pub fn hear(self) -> Option<[u8; Action::BYTES]>
        ensures { result ≡ heard (held self) }
    {
        input::hear(self.held())
    }

    // What it says with its last bytes. They are copied only where there are bytes before them.
    pub fn hear_with(self, more: &[u8]) -> Option<[u8; Action::BYTES]>
        ensures { result ≡ heard (held self ++ more.now) }
    {
        if self.count == 0 {
            return input::hear(more);
        }
        self.add(more).hear()
    }

    // The same text, with nothing behind it.
    pub fn tidy(self) -> Line
        ensures { result ≡ kept (held self) }
    {
        Line::empty().add(self.held())
    }

    // Whether bytes stand after the last feed of a text that goes on from it: the text does not end with a feed; or it is empty, and bytes
    // came before it.
    pub fn is_open(self, bytes: &[u8]) -> bool
        ensures { result ≡ isnt (eqb (length (cut (held self) bytes.now).rest) 0) }
    {
        match bytes.last() {
            Some(last) => *last != input::FEED,
            None => self.count != 0,
        }
    }
}
