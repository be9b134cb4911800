// Why something is refused.
ghost use Rattle.std.specs.Prelude.{◌≡◌, true, false, IfOk, IfErr};
ghost use Rattle.numbers.specs.Refusals.{number_of};

// Each with its number, which an answer carries. The lowest that applies is given.
#[derive(Clone, Copy, Debug, PartialEq, Eq)]
pub enum Refusal {
    // the length of memory, of frame bytes or of answer room
    Lengths = 1,
    // tables not well formed
    Disorder = 2,
    // unknown kind, unused field not zero, bad line
    NotAFrame = 3,
    OutOfRange = 4,
    // the two guests named are one
    SameGuest = 5,
    AbsentGuest = 6,
    PresentGuest = 7,
    // the CPU doesn't run the guest
    Elsewhere = 8,
    NoTranslation = 9,
    NotAllowed = 10,
    // the page is not held as the action needs
    NotHeld = 11,
    // the page is another guest's or the region's
    Taken = 12,
    StillInUse = 13,
    // nothing there to take away
    NotThere = 14,
    // key or pair absent and every place live
    NoRoom = 15,
}

impl Refusal {
    // Refused where the condition holds: `?` then ends the caller.
    pub fn when(self, bad: bool) -> Result<(), Refusal>
        ensures ok { IfOk result (λ _. bad ≡ false) }
        ensures err { IfErr result (λ e. (bad ≡ true) × (e ≡ self)) }
    {
        if bad { Err(self) } else { Ok(()) }
    }
}

impl From<Refusal> for u8 {
    ghost from_gives = { λ r n. n ≡ number_of r };

    fn from(refusal: Refusal) -> u8 {
        refusal as u8
    }
}
