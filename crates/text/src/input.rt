// Bytes of a log: its line feeds, and the frame that a line's digits spell.
ghost use Rattle.std.specs.Prelude.{◌≡◌, ◌+◌, cond, drop, eqb, ltb, Some, None, position};
ghost use Rattle.std.specs.Option.{option_map};
ghost use Rattle.text.specs.Text.{digit, feed};
ghost use Rattle.text.specs.Walks.{heard, feeds};

use numbers::frames::Action;

pub const FEED: u8 = b'\n';

// How many digits a line has: two for each byte of a frame.
pub const DIGITS: usize = 2 * Action::BYTES;

// The value of a digit.
#[tactic(auto, using(std::proofs::lemmas::Bool::Decides::nat_tests, crate::proofs::TextLaws::digit_by_range))]
fn digit(b: u8) -> Option<u8>
    ensures { result ≡ cond (ltb (digit b) 16) (Some (digit b)) None }
{
    match b {
        b'0'..=b'9' => Some(b - b'0'),
        b'a'..=b'f' => Some(b - b'a' + 10),
        _ => None,
    }
}

// What a line says, without its feed: the bytes of a frame, if it has a frame's digits and nothing else.
pub fn hear(line: &[u8]) -> Option<[u8; Action::BYTES]>
    ensures { result ≡ heard line.now }
{
    if line.len() != DIGITS {
        return None;
    }
    let mut bytes = [0u8; Action::BYTES];
    let mut good = true;
    // to the end, also past a byte that is no digit: a loop that leaves early takes a branch for each byte
    for i in 0..Action::BYTES {
        let high = digit(line[2 * i]);
        let low = digit(line[2 * i + 1]);
        good &= high.is_some() & low.is_some();
        bytes[i] = high.unwrap_or(0) * 16 + low.unwrap_or(0);
    }
    good.then_some(bytes)
}

// The first feed, if there is one.
fn first_feed(bytes: &[u8]) -> Option<usize>
    ensures { result ≡ position (λ b. eqb b feed) bytes.now }
{
    bytes.iter().position(|b| *b == FEED)
}

// Where the line that starts at a place ends: at its feed, if it has one. Past the end of the bytes there is none.
pub fn line_end(bytes: &[u8], at: usize) -> Option<usize>
    ensures { result ≡ option_map (λ n. at + n) (position (λ b. eqb b feed) (drop at bytes.now)) }
{
    if bytes.len() < at {
        return None;
    }
    match first_feed(&bytes[at..]) {
        Some(n) => Some(at + n),
        None => None,
    }
}

// How many lines are ended.
#[tactic(auto, using(std::proofs::lemmas::Grind::common_steps, crate::proofs::TextLaws::feeds_are), unfolding(crate::specs::Text::feed))]
pub fn feeds(bytes: &[u8]) -> usize
    ensures { result ≡ feeds bytes.now }
{
    let mut n = 0;
    for b in bytes {
        if *b == FEED {
            n += 1;
        }
    }
    n
}
