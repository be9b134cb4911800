// Tables of words, lent as slices of any length: one search, and what stands on it. A free place is 0.
#![tactic(auto, using(numbers::proofs::Bools::and_asks, numbers::proofs::Bools::or_asks), unfolding(numbers::specs::Tests::isnt, crate::specs::Wants::has_key, crate::specs::Wants::of_guest, crate::specs::Wants::of_gpage, crate::specs::Wants::to_page, crate::specs::Wants::ends_at, crate::specs::Wants::joins, crate::specs::Steps::wipe_from))]

ghost use Rattle.std.specs.Prelude.{◌≡◌, ◌≤◌, ◌<◌, length, IfSome, IfNone};
ghost use Rattle.std.specs.List.{position};
ghost use Rattle.numbers.specs.Search.{first};
ghost use Rattle.tables.specs.Steps.{wipe_from};
ghost use Rattle.tables.specs.Table.{hit, find, has, seat, cleared};
ghost use Rattle.tables.specs.Wants.{W, has_key, ends_at, joins, meets, found, invalidated};

use numbers::entries;

// What is looked for.
#[derive(Clone, Copy, Debug, PartialEq, Eq)]
pub enum Want {
    // the key of an entry: unit, guest and guest page
    Key(u32),
    // a guest's entries for a guest page, on every unit
    Everywhere(u8, u16),
    // entries that lead to a page, or pairs on it
    Page(u16),
    // a guest's entries
    Guest(u8),
    // a guest's entries that lead to a page
    Maps(u8, u16),
    // the pair of two guests, in either order, on a page
    Pair(u8, u8, u16),
    // pairs that have the guest as an end
    End(u8),
    // pairs that have the guest as an end, on a page
    Shared(u8, u16),
}

// ── one row ──
fn ends_at(word: u32, guest: u8) -> bool
    ensures { result ≡ ends_at guest word }
{
    guest == entries::left_in(word) || guest == entries::right_in(word)
}

fn joins(word: u32, left: u8, right: u8) -> bool
    ensures { result ≡ joins left right word }
{
    let l = entries::left_in(word);
    let r = entries::right_in(word);
    left == l && right == r || left == r && right == l
}

fn meets(word: u32, want: Want) -> bool
    ensures { result ≡ meets want word }
{
    match want {
        Want::Key(k) => k == entries::key_in(word),
        Want::Everywhere(g, v) => g == entries::guest_in(word) && v == entries::gpage_in(word),
        Want::Page(p) => p == entries::page_in(word),
        Want::Guest(g) => g == entries::guest_in(word),
        Want::Maps(g, p) => g == entries::guest_in(word) && p == entries::page_in(word),
        Want::Pair(l, r, p) => p == entries::page_in(word) && joins(word, l, r),
        Want::End(g) => ends_at(word, g),
        Want::Shared(g, p) => p == entries::page_in(word) && ends_at(word, g),
    }
}

// A live row that is looked for.
pub fn hits(word: u32, want: Want) -> bool
    ensures { result ≡ hit W (meets want) word }
{
    word != 0 && meets(word, want)
}

// A live row that has the key.
fn has_key(word: u32, key: u32) -> bool
    ensures { result ≡ hit W (has_key key) word }
{
    (word != 0) & (key == entries::key_in(word))
}

// ── searches ──
// The place of the first row that is looked for. What is looked for is asked once, and not at each row: by far the most look for a key.
pub fn first(rows: &[u32], want: Want) -> Option<usize>
    ensures { result ≡ position (hit W (meets want)) rows.now }
{
    match want {
        Want::Key(key) => rows.iter().position(|row| has_key(*row, key)),
        _ => rows.iter().position(|row| hits(*row, want)),
    }
}

// The lowest free place.
pub fn free(rows: &[u32]) -> Option<usize>
    ensures some { IfSome result (λ at. (at ≡ first W.free rows.now) × (at < length rows.now)) }
    ensures none { IfNone result (length rows.now ≤ first W.free rows.now) }
{
    let mut i: usize = 0;
    loop {
        if rows.len() <= i {
            break None;
        }
        if rows[i] == 0 {
            break Some(i);
        }
        i += 1;
    }
}

// The row that has the key. Every access comes here, so the loop is its own: it tests nothing but the key.
pub fn find(rows: &[u32], key: u32) -> Option<u32>
    ensures { result ≡ found (find W (has_key key) rows.now) }
{
    for row in rows {
        if (*row != 0) & (key == entries::key_in(*row)) {
            return Some(*row);
        }
    }
    None
}

pub fn has(rows: &[u32], want: Want) -> bool
    ensures { result ≡ has W (meets want) rows.now }
{
    first(rows, want).is_some()
}

// Where a row goes: over the one that is looked for, else to the lowest free place.
pub fn seat(rows: &[u32], want: Want) -> Option<usize>
    ensures some { IfSome result (λ at. (at ≡ seat W (meets want) rows.now) × (at < length rows.now)) }
    ensures none { IfNone result (length rows.now ≤ seat W (meets want) rows.now) }
{
    match first(rows, want) {
        Some(at) => Some(at),
        None => free(rows),
    }
}

// ── changes ──
fn cleared(word: u32, want: Want) -> u32
    ensures { result ≡ cleared W (meets want) word }
{
    if hits(word, want) { 0 } else { word }
}

// Every row from place `from` on that is looked for is freed.
pub fn wipe_from(rows: &mut [u32], from: usize, want: Want)
    ensures { rows.new ≡ wipe_from W (meets want) from rows.old }
{
    for i in from..rows.len() {
        rows[i] = cleared(rows[i], want);
    }
}

// The guest's entries for the guest page leave a TLB, on every unit.
pub fn invalidate(tlb: &mut [u32], guest: u8, gpage: u16)
    ensures { tlb.new ≡ invalidated guest gpage tlb.old }
{
    wipe_from(tlb, 0, Want::Everywhere(guest, gpage));
}
