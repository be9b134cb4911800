// A list of actions, one after the other: as frames in lent bytes, and as decoded actions.
#![tactic(auto)]

ghost use Rattle.std.specs.Prelude.{◌/◌, ◌≡◌, ◌<◌, length};
ghost use Rattle.numbers.specs.Refusals.{numbered};
ghost use Rattle.numbers.specs.Rules.{least};
ghost use Rattle.numbers.specs.Sizes.{frame_bytes};
ghost use Rattle.rules.specs.Calls.{frame_at, run, run_actions};
ghost use Rattle.lists.specs.Lists.{handled, own_rules, begun, ended};

use calls::referee;
use calls::referee::Referee;
use numbers::cells;
use numbers::frames::Action;
use numbers::refusals::Refusal;
use tables::state::Tables;

// What a list gives back: its own number, how many actions are handled and how many were accepted, and the tables. On the way the count
// of those accepted and the tables are those of the actions that have gone.
#[derive(Clone, Copy, Debug, PartialEq, Eq)]
pub struct Ran {
    pub number: u8,
    pub handled: usize,
    pub accepted: usize,
    pub tables: Tables,
}

// One action, its answer at its place.
fn handle(
    ran: &mut Ran,
    a: Action,
    at: usize,
    mem: &mut [u64],
    numbers: &mut [u8],
    words: &mut [u64],
)
    requires { ran.old.accepted < ran.old.handled }
    ensures { ended ran.new mem.new numbers.new words.new
        ≡ handled a at (ended ran.old mem.old numbers.old words.old) }
{
    let seen = referee::take_in_place(&mut ran.tables, a, mem);
    cells::set(numbers, at, seen.number);
    cells::set(words, at, seen.word);
    if seen.number == 0 {
        ran.accepted += 1;
    }
}

// ── before the first action ──
// 1 for lengths, 2 for tables that are not well formed: once for a list, since every action keeps good order.
#[tactic(auto, using(numbers::proofs::Bools::not_is, numbers::proofs::Bools::or_is), unfolding(numbers::specs::Rules::least, numbers::specs::Sizes::pages, numbers::specs::Sizes::page_words))]
fn check(
    referee: Referee,
    odd: bool,
    n: usize,
    memory: usize,
    numbers: usize,
    words: usize,
) -> Result<(), Refusal>
    ensures { numbered result ≡ least (own_rules odd n referee.tables memory numbers words) }
{
    let short = (memory != Referee::WORDS) | ((numbers < n) | (words < n));
    Refusal::Lengths.when(odd | short)?;
    Refusal::Disorder.when(!order::wf(referee.tables))
}

// All actions will be handled, or none where the list is refused.
fn begin(referee: Referee, odd: bool, n: usize, memory: usize, numbers: usize, words: usize) -> Ran
    ensures { result ≡ begun odd n referee.tables memory numbers words }
{
    let tables = referee.tables;
    match check(referee, odd, n, memory, numbers, words) {
        Ok(()) => Ran {
            number: 0,
            handled: n,
            accepted: 0,
            tables,
        },
        Err(refusal) => Ran {
            number: u8::from(refusal),
            handled: 0,
            accepted: 0,
            tables,
        },
    }
}

// ── lists ──
// The frame at place i, as an action.
#[tactic(auto, using(crate::proofs::ListLaws::frame_is), unfolding(numbers::specs::Sizes::frame_bytes))]
fn frame(bytes: &[u8], i: usize) -> Action
    requires { i < length bytes.now / frame_bytes }
    ensures { result ≡ frame_at bytes.now i }
{
    let at = i * Action::BYTES;
    Action::decode(&bytes[at..at + Action::BYTES])
}

// A list of frames.
pub fn run(
    referee: Referee,
    bytes: &[u8],
    mem: &mut [u64],
    numbers: &mut [u8],
    words: &mut [u64],
) -> Ran
    ensures { ended result mem.new numbers.new words.new
        ≡ run bytes.now (record { tables = referee.tables; memory = mem.old }) numbers.old words.old }
{
    let n = bytes.len() / Action::BYTES;
    let odd = bytes.len() % Action::BYTES != 0;
    let mut ran = begin(referee, odd, n, mem.len(), numbers.len(), words.len());
    for i in 0..ran.handled {
        handle(&mut ran, frame(bytes, i), i, mem, numbers, words);
    }
    ran
}

// A list of decoded actions.
pub fn run_actions(
    referee: Referee,
    actions: &[Action],
    mem: &mut [u64],
    numbers: &mut [u8],
    words: &mut [u64],
) -> Ran
    ensures { ended result mem.new numbers.new words.new
        ≡ run_actions actions.now (record { tables = referee.tables; memory = mem.old }) numbers.old words.old }
{
    let n = actions.len();
    let mut ran = begin(referee, false, n, mem.len(), numbers.len(), words.len());
    for i in 0..ran.handled {
        handle(&mut ran, actions[i], i, mem, numbers, words);
    }
    ran
}
