// Lists of frames: six that are accepted and three that are refused; the same decoded; then lists refused whole.
use crate::show::{Answer, Changes, WORDS};
use calls::referee::Referee;
use lists::Ran;
use numbers::answers::Seen;
use numbers::cells;
use numbers::frames::Action;
use std::io;
use tables::state::Tables;

const FRAMES: usize = 9;

// Two more than the list has answers.
const PLACES: usize = FRAMES + 2;

// Where the list writes: word 1 of page 5.
const WRITTEN: usize = 5 * (Action::PAGE_WORDS as usize) + 1;

// The seventh is of no kind, the eighth has a number out of range, the ninth a key that is not there.
const LIST: [u128; FRAMES] = [
    0x1001000000000000_0000000000000000, // AddVm
    0x1201000000000005_0000000000000000, // AssignPage
    0x1601000300020005_0000000000000000, // Map
    0x1801000000000000_0000000000000000, // ContextSwitch
    0x0201000000210000_00000000000000ab, // Write
    0x0101000000210000_0000000000000000, // Read
    0x1c01000000000005_0000000000000000,
    0x1208000000000005_0000000000000000, // AssignPage
    0x1701000000030000_0000000000000000, // Unmap
];

fn frames() -> [[u8; Action::BYTES]; FRAMES] {
    LIST.map(u128::to_be_bytes)
}

// The list's own number, how many were handled and accepted, the answer places that were lent, and what changed.
fn left(
    rt: &impl Print,
    old: Tables,
    ran: Ran,
    mem: &[u64],
    numbers: &[u8],
    words: &[u64],
) -> io::Result<()> {
    print!(rt; "{} {} {}", ran.number, ran.handled, ran.accepted)?;
    for (&number, &word) in numbers.iter().zip(words) {
        print!(rt; " {}", Answer(Seen { number, word }))?;
    }
    let changes = Changes {
        old,
        new: ran.tables,
    };
    println!(rt; "{changes} word {:016x}", cells::get_or(mem, WRITTEN, 0))
}

// What is lent begins as 7 in each word of memory and ee in each answer, which no action leaves: what is not written shows. Memory stands here,
// and not in each call, so that the stack holds it once.
#[inline(never)]
fn run(
    rt: &impl Print,
    tables: Tables,
    bytes: &[u8],
    memory: usize,
    places: usize,
) -> io::Result<()> {
    let mut mem = [7; WORDS];
    let lent = &mut mem[..memory.min(WORDS)];
    let mut numbers = [0xee; PLACES];
    let answers = &mut numbers[..places.min(PLACES)];
    let mut words = [0xee; PLACES];
    let ran = lists::run(Referee { tables }, bytes, lent, answers, &mut words);
    left(rt, tables, ran, lent, answers, &words)
}

fn boot() -> Tables {
    Tables::boot(0xffff, 0)
}

pub fn example(rt: &impl Print) -> io::Result<()> {
    println!(rt; "a list of nine, two places more, and a place for each")?;
    let list = frames();
    let bytes = list.as_flattened();
    run(rt, boot(), bytes, WORDS, PLACES)?;
    run(rt, boot(), bytes, WORDS, FRAMES)
}

// The list's frames, each decoded by itself.
#[inline(never)]
pub fn decoded(rt: &impl Print) -> io::Result<()> {
    println!(rt; "the same, decoded")?;
    let tables = boot();
    let actions = frames().map(|frame| Action::decode(&frame));
    let mut mem = [7; WORDS];
    let mut numbers = [0xee; PLACES];
    let mut words = [0xee; PLACES];
    let referee = Referee { tables };
    let ran = lists::run_actions(referee, &actions, &mut mem, &mut numbers, &mut words);
    left(rt, tables, ran, &mem, &numbers, &words)
}

pub fn refused(rt: &impl Print) -> io::Result<()> {
    println!(rt; "refused whole: a byte less, a word less, a place less, tables out of order")?;
    let list = frames();
    let bytes = list.as_flattened();
    let short = &bytes[..bytes.len() - 1];
    run(rt, boot(), short, WORDS, PLACES)?;
    run(rt, boot(), bytes, WORDS - 1, PLACES)?;
    run(rt, boot(), bytes, WORDS, FRAMES - 1)?;
    let mut odd = boot();
    odd.running[0] = 9;
    run(rt, odd, bytes, WORDS, PLACES)
}
