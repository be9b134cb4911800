// Tables that no boot and no action comes to.
use crate::show;
use crate::show::{Answer, Changes};
use calls::referee::Referee;
use edits::out::Out;
use holdings::Holdings;
use numbers::entries;
use std::io;
use tables::state::{Side, Tables};

// Hypervisor pages 0..15, region 63, guests 1 and 2 present.
fn start() -> Tables {
    let mut t = Tables::boot(0xffff, 0x8000000000000000);
    t.present[1] = true;
    t.present[2] = true;
    t
}

// Guest 1 holds page 5 for CPU.
fn held() -> Tables {
    let mut t = start();
    t.holder[5] = Tables::GUEST + 1;
    t
}

// Guest 2, which maps the page, would be left with a pair on it, with guest 3: refused all the same.
pub fn second_pair(rt: &impl Print) -> io::Result<()> {
    println!(rt; "6: 1 holds page 5, pairs 1-2 and 2-3 on it, 2 maps it: unshare 1-2, and as 2-1")?;
    let mut t = held();
    t.present[3] = true;
    t.pairs[0] = entries::pair(1, 2, 5, 0);
    t.pairs[1] = entries::pair(2, 3, 5, 0);
    t.map[0] = entries::entry(0, 2, 2, 5, 1);
    let frames = [
        0x1501020000000005_0000000000000000, // UnsharePage
        0x1502010000000005_0000000000000000, // UnsharePage
    ];
    show::acts(rt, t, &frames)
}

// A pair that stands reversed counts as the same.
pub fn reversed_pair(rt: &impl Print) -> io::Result<()> {
    println!(rt; "a pair stands as 2-1, 1 holds the page: share 1 with 2, unshare 1-2")?;
    let mut t = held();
    t.pairs[3] = entries::pair(2, 1, 5, 0);
    let frames = [
        0x1401020000000005_0000000000000000, // SharePage
        0x1501020000000005_0000000000000000, // UnsharePage
    ];
    show::acts(rt, t, &frames)
}

fn by_itself(rt: &impl Print, old: Tables, out: Out) -> io::Result<()> {
    let answer = Answer(out.seen);
    let changes = Changes {
        old,
        new: out.tables,
    };
    println!(rt; "by itself {answer}{changes}")
}

// Not well formed: an entry for page 5, of guest 2, that stands in a TLB alone.
fn cached(mut t: Tables) -> Tables {
    t.tlb[31] = entries::entry(2, 2, 2, 5, 1);
    t
}

// A call refuses such tables with 2, and an action by itself still has its number.
pub fn cached_alone(rt: &impl Print) -> io::Result<()> {
    println!(rt; "an entry stands in a TLB alone: reclaim its page, remove its guest")?;
    let t = cached(start());
    show::acts(rt, t, &[0x1102000000000000_0000000000000000])?; // RemoveVm
    by_itself(rt, t, Holdings { tables: t }.remove_vm(2))?;
    let h = cached(held());
    show::acts(rt, h, &[0x1301000000000005_0000000000000000])?; // ReclaimPage
    by_itself(rt, h, Holdings { tables: h }.reclaim_page(Side::Cpu, 1, 5))
}

// In front of the first words of a memory of zeros. It stands here, and not in each call, so that the stack holds it once.
#[inline(never)]
fn act(rt: &impl Print, frame: &[u8], words: usize) -> io::Result<()> {
    let tables = start();
    let mut mem = [0; show::WORDS];
    let lent = &mut mem[..words.min(show::WORDS)];
    by_itself(rt, tables, Referee { tables }.act(frame, lent))
}

// The call's own 1: a byte too few, a word of memory too few. Nothing is changed.
pub fn too_short(rt: &impl Print) -> io::Result<()> {
    println!(rt; "AddVm 3 in 15 bytes, in front of a word of memory less, and right")?;
    let add_3 = 0x1003000000000000_0000000000000000u128.to_be_bytes();
    act(rt, &add_3[..15], show::WORDS)?;
    act(rt, &add_3, show::WORDS - 1)?;
    act(rt, &add_3, show::WORDS)
}
