// Where a row goes, and where one stands: found once, while it is asked whether there is any such place.
ghost use Rattle.std.specs.Prelude.{◌≡◌, true, false, IfOk, IfErr};
ghost use Rattle.numbers.specs.Search.{first};
ghost use Rattle.numbers.specs.Tests.{isnt};
ghost use Rattle.tables.specs.Table.{hit, find, has, no_room, seat};
ghost use Rattle.tables.specs.Wants.{W, has_key, meets};
ghost use Rattle.verdicts.specs.Places.{new_place};

use numbers::refusals::Refusal;
use tables::search;
use tables::search::Want;

// 15, or where a row goes: over the one that has its key, else to the lowest free place.
pub fn seated(rows: &[u32], key: u32) -> Result<usize, Refusal>
    ensures ok { IfOk result (λ at. (at ≡ seat W (has_key key) rows.now) × (no_room W (has_key key) rows.now ≡ false)) }
    ensures err { IfErr result (λ e. (e ≡ Refusal.NoRoom) × (no_room W (has_key key) rows.now ≡ true)) }
{
    search::seat(rows, Want::Key(key)).ok_or(Refusal::NoRoom)
}

// 14, or the first place of what is to be taken away.
pub fn standing(rows: &[u32], want: Want) -> Result<usize, Refusal>
    ensures ok { IfOk result (λ at. (at ≡ first (hit W (meets want)) rows.now) × (isnt (has W (meets want) rows.now) ≡ false)) }
    ensures err { IfErr result (λ e. (e ≡ Refusal.NotThere) × (isnt (has W (meets want) rows.now) ≡ true)) }
{
    search::first(rows, want).ok_or(Refusal::NotThere)
}

// 9, or the row that has the key.
pub fn home(rows: &[u32], key: u32) -> Result<u32, Refusal>
    ensures ok { IfOk result (λ word. (word ≡ find W (has_key key) rows.now) × (isnt (has W (has_key key) rows.now) ≡ false)) }
    ensures err { IfErr result (λ e. (e ≡ Refusal.NoTranslation) × (isnt (has W (has_key key) rows.now) ≡ true)) }
{
    search::find(rows, key).ok_or(Refusal::NoTranslation)
}

// 15, or where a row goes that is not to stand twice: to the lowest free place, or nowhere where it stands.
pub fn new_place(rows: &[u32], want: Want) -> Result<Option<usize>, Refusal>
    ensures ok { IfOk result (λ at. (at ≡ new_place (meets want) rows.now) × (no_room W (meets want) rows.now ≡ false)) }
    ensures err { IfErr result (λ e. (e ≡ Refusal.NoRoom) × (no_room W (meets want) rows.now ≡ true)) }
{
    if search::has(rows, want) {
        return Ok(None);
    }
    match search::free(rows) {
        Some(at) => Ok(Some(at)),
        None => Err(Refusal::NoRoom),
    }
}
