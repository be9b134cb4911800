// A frame of 16 bytes as an action by value; which fields each kind uses; refusals 3 and 4.
#![tactic(auto, using(crate::proofs::Bools::and_is, crate::proofs::Bools::or_is, crate::proofs::Bools::or_asks), unfolding(crate::specs::Rules::least, crate::specs::Tests::isnt, crate::specs::Frames::big, crate::specs::Frames::decode, crate::specs::Frames::uses, crate::specs::Frames::stray, crate::specs::Frames::beyond, crate::specs::Frames::frame_number, crate::specs::Sizes::guests, crate::specs::Sizes::units, crate::specs::Sizes::accesses, crate::specs::Sizes::gpages, crate::specs::Sizes::page_words, crate::specs::Sizes::pages))]

ghost use Rattle.std.specs.Prelude.{◌≡◌, ◌<◌, true, false, eqb, IfSome, IfNone};
ghost use Rattle.numbers.specs.Frames.{big, decode, row_of, uses, stray, beyond, frame_number};
ghost use Rattle.numbers.specs.Refusals.{numbered};

use crate::cells;
use crate::refusals::Refusal;

#[derive(Clone, Copy, Debug, PartialEq, Eq)]
pub struct Action {
    pub kind: u8,
    pub guest: u8,
    // a CPU, a stream or the right guest
    pub second: u8,
    // bit 0 read, bit 1 write
    pub access: u8,
    // a word address or a guest page
    pub address: u16,
    pub page: u16,
    pub word: u64,
}

// The fields that a kind uses, a flag each. The second and the address say in which way.
const GUEST: u16 = 1;

const UNIT: u16 = 2;

const RIGHT: u16 = 4;

const ACCESS: u16 = 8;

const ADDRESS: u16 = 16;

const GPAGE: u16 = 32;

const PAGE: u16 = 64;

const WORD: u16 = 128;

// A row has its kind above the flags.
const KIND: u16 = 256;

const ROWS: usize = 23;

const KINDS: [u16; ROWS] = [
    0x01 * KIND + GUEST + UNIT + ADDRESS, // Read
    0x02 * KIND + GUEST + UNIT + ADDRESS + WORD, // Write
    0x03 * KIND + GUEST + UNIT + WORD, // HyperCall
    0x04 * KIND + GUEST + UNIT + ADDRESS, // DmaRead
    0x05 * KIND + GUEST + UNIT + ADDRESS + WORD, // DmaWrite
    0x10 * KIND + GUEST, // AddVm
    0x11 * KIND + GUEST, // RemoveVm
    0x12 * KIND + GUEST + PAGE, // AssignPage
    0x13 * KIND + GUEST + PAGE, // ReclaimPage
    0x14 * KIND + GUEST + RIGHT + PAGE, // SharePage
    0x15 * KIND + GUEST + RIGHT + PAGE, // UnsharePage
    0x16 * KIND + GUEST + GPAGE + PAGE + ACCESS, // Map
    0x17 * KIND + GUEST + GPAGE, // Unmap
    0x18 * KIND + GUEST + UNIT, // ContextSwitch
    0x19 * KIND + UNIT, // Idle
    0x1a * KIND + GUEST + UNIT + GPAGE, // Fill
    0x1b * KIND + GUEST + UNIT + GPAGE, // Drop
    0x20 * KIND + GUEST + PAGE, // IommuAssignPage
    0x21 * KIND + GUEST + PAGE, // IommuReclaimPage
    0x22 * KIND + GUEST + GPAGE + PAGE + ACCESS, // IommuMap
    0x23 * KIND + GUEST + GPAGE, // IommuUnmap
    0x24 * KIND + GUEST + UNIT + GPAGE, // IommuFill
    0x25 * KIND + GUEST + UNIT + GPAGE, // IommuDrop
];

// Two bytes, highest first.
fn two(bytes: &[u8], at: u16) -> u16
    ensures { result ≡ big 2 bytes.now at }
{
    let i = at as usize;
    (cells::get_or(bytes, i, 0) as u16) * 256 + (cells::get_or(bytes, i + 1, 0) as u16)
}

// A word: eight bytes, highest first. A frame has one at its end; the boot line is two.
pub fn word(bytes: &[u8], at: u8) -> u64
    ensures { result ≡ big 8 bytes.now at }
{
    let i = at as u16;
    let a = two(bytes, i) as u64;
    let b = two(bytes, i + 2) as u64;
    let c = two(bytes, i + 4) as u64;
    let d = two(bytes, i + 6) as u64;
    ((a * 65536 + b) * 65536 + c) * 65536 + d
}

// A row's flag.
fn uses(row: u16, flag: u16) -> bool
    requires { 0 < flag }
    ensures { result ≡ uses row flag }
{
    row / flag % 2 == 1
}

// The row of a kind, where it is known.
fn row_of(kind: u8) -> Option<u16>
    ensures some { IfSome result (λ row. (row ≡ row_of kind) × (eqb (row_of kind) 0 ≡ false)) }
    ensures none { IfNone result (eqb (row_of kind) 0 ≡ true) }
{
    for row in &KINDS {
        if (kind as u16) == *row / KIND {
            return Some(*row);
        }
    }
    None
}

impl Action {
    // How many there are: a number is in range below its count.
    pub const GUESTS: u8 = 8;

    pub const UNITS: u8 = 4;

    pub const ACCESSES: u8 = 4;

    pub const GPAGES: u16 = 256;

    pub const PAGES: u16 = 64;

    pub const PAGE_WORDS: u16 = 16;

    // How many bytes a frame has.
    pub const BYTES: usize = 16;

    // The action that 16 bytes say. Bytes that are not there count as 0.
    pub fn decode(bytes: &[u8]) -> Action
        ensures { result ≡ decode bytes.now }
    {
        let kind = cells::get_or(bytes, 0, 0);
        let guest = cells::get_or(bytes, 1, 0);
        let second = cells::get_or(bytes, 2, 0);
        let access = cells::get_or(bytes, 3, 0);
        let address = two(bytes, 4);
        let page = two(bytes, 6);
        let word = word(bytes, 8);
        Action {
            kind,
            guest,
            second,
            access,
            address,
            page,
            word,
        }
    }

    // A field that the row does not use is not zero. Within a field `&`: both sides are at hand, and need no branch.
    fn stray(self, row: u16) -> bool
        ensures { result ≡ stray row self }
    {
        !uses(row, GUEST) & (self.guest != 0)
            || !(uses(row, UNIT) | uses(row, RIGHT)) & (self.second != 0)
            || !uses(row, ACCESS) & (self.access != 0)
            || !(uses(row, ADDRESS) | uses(row, GPAGE)) & (self.address != 0)
            || !uses(row, PAGE) & (self.page != 0)
            || !uses(row, WORD) & (self.word != 0)
    }

    // A number that the row uses is out of range.
    fn beyond(self, row: u16) -> bool
        ensures { result ≡ beyond row self }
    {
        uses(row, GUEST) & (Action::GUESTS <= self.guest)
            || uses(row, UNIT) & (Action::UNITS <= self.second)
            || uses(row, RIGHT) & (Action::GUESTS <= self.second)
            || uses(row, ACCESS) & (Action::ACCESSES <= self.access)
            || uses(row, ADDRESS) & (Action::GPAGES * Action::PAGE_WORDS <= self.address)
            || uses(row, GPAGE) & (Action::GPAGES <= self.address)
            || uses(row, PAGE) & (Action::PAGES <= self.page)
    }

    // The frame check: an unknown kind and an unused field that is not zero are no frame; then numbers out of range.
    pub fn check(self) -> Result<(), Refusal>
        ensures { numbered result ≡ frame_number self }
    {
        let Some(row) = row_of(self.kind) else {
            return Err(Refusal::NotAFrame);
        };
        Refusal::NotAFrame.when(self.stray(row))?;
        Refusal::OutOfRange.when(self.beyond(row))
    }
}
