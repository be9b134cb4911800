// Entries of maps and TLBs and shared pairs, each as one word; 0 is a free place.
#![tactic(auto, unfolding(crate::specs::Entries::key_of, crate::specs::Entries::entry, crate::specs::Entries::access_in, crate::specs::Entries::page_in, crate::specs::Entries::key_in, crate::specs::Entries::gpage_in, crate::specs::Entries::guest_in, crate::specs::Entries::unit_in, crate::specs::Entries::tag_in, crate::specs::Entries::at_unit, crate::specs::Entries::readable, crate::specs::Entries::writable, crate::specs::Entries::pair, crate::specs::Entries::right_in, crate::specs::Entries::left_in, crate::specs::Entries::pair_tag_in, crate::specs::Sizes::access_span, crate::specs::Sizes::page_span, crate::specs::Sizes::gpage_span, crate::specs::Sizes::guest_span, crate::specs::Sizes::unit_span))]

ghost use Rattle.std.specs.Prelude.{◌≡◌};
ghost use Rattle.numbers.specs.Entries.{key_of, entry, at_unit, access_in, page_in, key_in, gpage_in, guest_in, unit_in, tag_in, pair, right_in, left_in, pair_tag_in, readable, writable};

// Spans: how many values each field has room for, from the lowest field up. How many there are is `Action`'s to say.
const ACCESS_SPAN: u32 = 4;

const PAGE_SPAN: u32 = 1024;

const GPAGE_SPAN: u32 = 256;

const GUEST_SPAN: u32 = 8;

const UNIT_SPAN: u32 = 4;

// What stands above page and access in an entry: unit (0 in a map), guest and guest page, and a 1 on top that says live.
pub fn key_of(unit: u8, guest: u8, gpage: u16) -> u32
    ensures { result ≡ key_of unit guest gpage }
{
    (gpage as u32) + GPAGE_SPAN * ((guest as u32) + GUEST_SPAN * ((unit as u32) + UNIT_SPAN))
}

pub fn entry(unit: u8, guest: u8, gpage: u16, page: u16, access: u8) -> u32
    ensures { result ≡ entry unit guest gpage page access }
{
    (access as u32) + ACCESS_SPAN * ((page as u32) + PAGE_SPAN * key_of(unit, guest, gpage))
}

pub fn access_in(word: u32) -> u8
    ensures { result ≡ access_in word }
{
    (word % ACCESS_SPAN) as u8
}

pub fn page_in(word: u32) -> u16
    ensures { result ≡ page_in word }
{
    (word / ACCESS_SPAN % PAGE_SPAN) as u16
}

pub fn key_in(word: u32) -> u32
    ensures { result ≡ key_in word }
{
    word / ACCESS_SPAN / PAGE_SPAN
}

pub fn gpage_in(word: u32) -> u16
    ensures { result ≡ gpage_in word }
{
    (key_in(word) % GPAGE_SPAN) as u16
}

pub fn guest_in(word: u32) -> u8
    ensures { result ≡ guest_in word }
{
    (key_in(word) / GPAGE_SPAN % GUEST_SPAN) as u8
}

pub fn unit_in(word: u32) -> u8
    ensures { result ≡ unit_in word }
{
    (key_in(word) / GPAGE_SPAN / GUEST_SPAN % UNIT_SPAN) as u8
}

// What stands above the unit: a 1 in a proper entry.
pub fn tag_in(word: u32) -> u32
    ensures { result ≡ tag_in word }
{
    key_in(word) / GPAGE_SPAN / GUEST_SPAN / UNIT_SPAN
}

// The same entry at another unit.
pub fn at_unit(unit: u8, word: u32) -> u32
    ensures { result ≡ at_unit unit word }
{
    entry(
        unit,
        guest_in(word),
        gpage_in(word),
        page_in(word),
        access_in(word),
    )
}

pub fn readable(word: u32) -> bool
    ensures { result ≡ readable word }
{
    access_in(word) % 2 == 1
}

pub fn writable(word: u32) -> bool
    ensures { result ≡ writable word }
{
    access_in(word) / 2 % 2 == 1
}

// A pair: left and right guest, page and access, and a 1 on top.
pub fn pair(left: u8, right: u8, page: u16, access: u8) -> u32
    ensures { result ≡ pair left right page access }
{
    (access as u32)
        + ACCESS_SPAN
            * ((page as u32)
                + PAGE_SPAN * ((right as u32) + GUEST_SPAN * ((left as u32) + GUEST_SPAN)))
}

pub fn right_in(word: u32) -> u8
    ensures { result ≡ right_in word }
{
    (key_in(word) % GUEST_SPAN) as u8
}

pub fn left_in(word: u32) -> u8
    ensures { result ≡ left_in word }
{
    (key_in(word) / GUEST_SPAN % GUEST_SPAN) as u8
}

// What stands above the left guest: a 1 in a proper pair.
pub fn pair_tag_in(word: u32) -> u32
    ensures { result ≡ pair_tag_in word }
{
    key_in(word) / GUEST_SPAN / GUEST_SPAN
}
