// Answer lines, written as digits.
ghost use Rattle.std.specs.Prelude.{◌≡◌, ◌<◌, length};
ghost use Rattle.text.specs.Text.{glyph, digits};
ghost use Rattle.text.specs.Answers.{spelt, placed};

use crate::input;
use numbers::answers::Seen;

// How many bytes an answer line has: 2 digits of number, 16 of word, a feed.
pub const BYTES: usize = 19;

#[tactic(auto, using(std::proofs::lemmas::Bool::Decides::nat_tests), unfolding(crate::specs::Text::glyph))]
fn glyph(d: u8) -> u8
    requires { d < 16 }
    ensures { result ≡ glyph d }
{
    if d < 10 { b'0' + d } else { b'a' + (d - 10) }
}

// The last digits of a number, as many as there are places.
fn spell(out: &mut [u8], number: u64)
    ensures { out.new ≡ digits (length out.old) number }
{
    let mut rest = number;
    for i in (0..out.len()).rev() {
        out[i] = glyph((rest % 16) as u8);
        rest /= 16;
    }
}

// An answer line, from a place on. Where it does not fit, nothing is written.
pub fn put(out: &mut [u8], at: usize, seen: Seen)
    ensures { out.new ≡ placed out.old at (spelt seen) }
{
    if out.len().saturating_sub(at) < BYTES {
        return;
    }
    let line = &mut out[at..at + BYTES];
    spell(&mut line[..2], u64::from(seen.number));
    spell(&mut line[2..18], seen.word);
    line[18] = input::FEED;
}
