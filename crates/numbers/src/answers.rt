// What an answer carries, whoever gives it: an action, a call, a line of a log.
ghost use Rattle.std.specs.Prelude.{◌≡◌};
ghost use Rattle.numbers.specs.Answers.{wordless, seen_of};
ghost use Rattle.numbers.specs.Refusals.{number_of};

use crate::refusals::Refusal;

#[derive(Clone, Copy, Debug, PartialEq, Eq)]
pub struct Seen {
    // 0, or why it was refused
    pub number: u8,
    // what a read found, else 0
    pub word: u64,
}

impl Seen {
    // Every refusal, and every action that reads nothing.
    pub fn wordless(number: u8) -> Seen
        ensures { result ≡ wordless number }
    {
        Seen { number, word: 0 }
    }

    // An acceptance that hands nothing back.
    pub fn accepted() -> Seen
        ensures { result ≡ wordless 0 }
    {
        Seen::wordless(0)
    }

    pub fn refused(refusal: Refusal) -> Seen
        ensures { result ≡ wordless (number_of refusal) }
    {
        Seen::wordless(u8::from(refusal))
    }
}

// The word that is handed back, or why there is none.
impl From<Result<u64, Refusal>> for Seen {
    ghost from_gives = { λ r s. s ≡ seen_of r };

    fn from(answer: Result<u64, Refusal>) -> Seen {
        match answer {
            Ok(word) => Seen { number: 0, word },
            Err(refusal) => Seen::refused(refusal),
        }
    }
}
