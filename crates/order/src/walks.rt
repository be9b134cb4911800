// Whole tables, and a map with its TLB: each loop is left at the first row that settles the answer.
ghost use Rattle.std.specs.Prelude.{◌≡◌, ℕ, Bool};
ghost use Rattle.numbers.specs.Tests.{◌and◌};
ghost use Rattle.order.specs.Calls.{Gives};
ghost use Rattle.order.specs.Sides.{side_row, side_ok};
ghost use Rattle.tables.specs.Lent.{tables_of};
ghost use Rattle.tables.specs.State.{map_of};
ghost use Rattle.tables.specs.Table.{each, uniq};
ghost use Rattle.tables.specs.Wants.{W, meets, same_entry, same_pair};
ghost use Rattle.tables.specs.Wf.{cached, entry_ok, pair_ok};
ghost use Rattle.tables.specs.declared.search.Want.{Want};

use crate::rows;
use numbers::entries;
use tables::search;
use tables::search::Want;
use tables::state::{Lent, Side};

// Each live row is one that its table may have, as `ok` says.
fn rows_ok<F: Fn(u32) -> bool>(table: &[u32], ok: F) -> bool
    requires { F.IsAlwaysCallable ok }
    ensures { (test : ℕ → Bool) → Gives (F.post ok) test → result ≡ each W test table.now }
{
    table.iter().all(|row| *row == 0 || ok(*row))
}

// No key, or no pair, stands twice: no row has its like further on. `same` says what stands under the key of a row.
fn unique<F: Fn(u32) -> Want>(table: &[u32], same: F) -> bool
    requires { F.IsAlwaysCallable same }
    ensures { (want : ℕ → Want) → Gives (F.post same) want → result ≡ uniq W (λ x. meets (want x)) table.now }
{
    let mut once = true;
    let mut rest = table;
    'rows: while let Some((row, later)) = rest.split_first() {
        if *row != 0 {
            let want = same(*row);
            for other in later {
                if search::hits(*other, want) {
                    once = false;
                    break 'rows;
                }
            }
        }
        rest = later;
    }
    once
}

// Each pair is one that may stand, and none stands twice.
pub fn pairs_ok(t: Lent) -> bool
    ensures { result ≡ (each W (pair_ok t.entry.present.now) t.entry.pairs.now and uniq W same_pair t.entry.pairs.now) }
{
    rows_ok(t.pairs, |row| rows::pair_ok(t.present, row)) && unique(t.pairs, rows::same_pair)
}

// The same of a side's map.
fn map_ok(t: Lent, side: Side) -> bool
    ensures { result ≡ (each W (side_row side (tables_of t.entry)) (map_of side (tables_of t.entry))
        and uniq W same_entry (map_of side (tables_of t.entry))) }
{
    let map = t.map_of(side);
    rows_ok(map, |row| rows::map_row_ok(t, side, row)) && unique(map, rows::same_entry)
}

// And of a TLB by itself.
fn tlb_ok(tlb: &[u32]) -> bool
    ensures { result ≡ (each W entry_ok tlb.now and uniq W same_entry tlb.now) }
{
    rows_ok(tlb, rows::entry_ok) && unique(tlb, rows::same_entry)
}

// Each entry of a TLB is its map's entry for that guest and guest page.
fn tlb_safe(map: &[u32], tlb: &[u32]) -> bool
    ensures { result ≡ each W (cached map.now) tlb.now }
{
    let mut safe = true;
    'rows: for row in tlb {
        if *row != 0 {
            let home = entries::at_unit(0, *row);
            let key = Want::Key(entries::key_in(home));
            for entry in map {
                if search::hits(*entry, key) {
                    if *entry == home {
                        continue 'rows;
                    }
                    break;
                }
            }
            safe = false;
            break;
        }
    }
    safe
}

// A side's map and its TLB.
#[tactic(auto, using(numbers::proofs::Bools::and_asks), unfolding(tables::specs::Wf::walk_ok))]
pub fn walk_ok(t: Lent, side: Side) -> bool
    ensures { result ≡ side_ok side (tables_of t.entry) }
{
    let tlb = t.tlb_of(side);
    map_ok(t, side) && tlb_ok(tlb) && tlb_safe(t.map_of(side), tlb)
}
