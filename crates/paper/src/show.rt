// Frames handed to a call, and what came of each, in one line. A frame is its 16 bytes, kind to word, as one number.
use calls::referee::Referee;
use numbers::answers::Seen;
use std::{fmt, io};
use tables::state::Tables;

pub const WORDS: usize = Referee::WORDS;

// An answer's number and word.
#[derive(Clone, Copy)]
pub struct Answer(pub Seen);

impl fmt::Display for Answer {
    fn fmt<W: fmt::Write>(&self, f: &mut fmt::Formatter<W>) -> fmt::Result {
        write!(f, "{:02x} {:016x}", self.0.number, self.0.word)
    }
}

// Each place of the tables that changed, as old>new.
#[derive(Clone, Copy)]
pub struct Changes {
    pub old: Tables,
    pub new: Tables,
}

// What changed in one table.
fn changed<T: Copy + Into<u64>, W: fmt::Write>(
    f: &mut fmt::Formatter<W>,
    name: &str,
    old: &[T],
    new: &[T],
) -> fmt::Result {
    for (at, (&old, &new)) in old.iter().zip(new).enumerate() {
        let old: u64 = old.into();
        let new: u64 = new.into();
        if old != new {
            write!(f, " {name}[{at}] {old:x}>{new:x}")?;
        }
    }
    Ok(())
}

impl fmt::Display for Changes {
    fn fmt<W: fmt::Write>(&self, f: &mut fmt::Formatter<W>) -> fmt::Result {
        let old = &self.old;
        let new = &self.new;
        changed(f, "map", &old.map, &new.map)?;
        changed(f, "tlb", &old.tlb, &new.tlb)?;
        changed(f, "io_map", &old.io_map, &new.io_map)?;
        changed(f, "io_tlb", &old.io_tlb, &new.io_tlb)?;
        changed(f, "pairs", &old.pairs, &new.pairs)?;
        changed(f, "holder", &old.holder, &new.holder)?;
        changed(f, "dma", &old.dma, &new.dma)?;
        changed(f, "region", &old.region, &new.region)?;
        changed(f, "present", &old.present, &new.present)?;
        changed(f, "running", &old.running, &new.running)
    }
}

// Frame after frame, each in front of what the one before left.
#[inline(never)]
pub fn acts(rt: &impl Print, start: Tables, frames: &[u128]) -> io::Result<()> {
    let mut old = start;
    let mut mem = [0u64; WORDS];
    for frame in frames {
        let referee = Referee { tables: old };
        let out = referee.act(&frame.to_be_bytes(), &mut mem);
        let answer = Answer(out.seen);
        let new = out.tables;
        let changes = Changes { old, new };
        println!(rt; "{frame:032x} {answer}{changes}")?;
        old = new;
    }
    Ok(())
}
