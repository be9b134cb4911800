// A log from a reader, its answers to a writer. What a line means is not known here.
#![tactic(auto)]

ghost use Rattle.std.specs.Prelude.{◌≡◌, ◌≤◌, length, take};

use calls::referee::Referee;
use lines::replay::{Fed, Replay};
use std::io::{Read, Write};
use text::answers;

// How many bytes are read at a time, and room for the answers if each of them ends a line.
const BYTES: usize = 65536;

const ROOM: usize = BYTES * answers::BYTES;

// What a log is replayed in: a piece of it, the memory, the answers to the piece.
#[derive(Drop)]
struct Room {
    bytes: [u8; BYTES],
    mem: [u64; Referee::WORDS],
    out: [u8; ROOM],
}

// There is nowhere to say that this could not be said.
fn say(rt: &impl Eprint, text: &str) {
    let _ = rt.eprintln(text);
}

// Bytes are a piece of the log, and no bytes are its end.
fn answer(log: Replay, bytes: &[u8], mem: &mut [u64], out: &mut [u8]) -> Fed
    ensures { (result.written ≤ length out.new) × (result.written ≡ length (take result.written out.new)) }
{
    if bytes.is_empty() {
        return log.end(bytes, mem, out);
    }
    log.feed(bytes, mem, out)
}

impl Room {
    // Reads once, and writes the answers to what came. Gives the log to go on with: there is none after its end, nor after a read or a write
    // that failed. A log that could not be read to its end is not closed.
    fn turn<R: Read, W: Write>(
        &mut self,
        rt: &impl Eprint,
        from: &mut R,
        to: &mut W,
        log: Replay,
    ) -> Option<Replay> {
        let Ok(n) = from.read(&mut self.bytes) else {
            say(rt, "replay: the log could not be read");
            return None;
        };
        let fed = answer(log, &self.bytes[..n], &mut self.mem, &mut self.out);
        // not of a log from its start, with this much room: `never-refused` in crate `logs`
        if fed.number != 0 {
            say(rt, "replay: a piece of the log was refused");
            return None;
        }
        if to.write_all(&self.out[..fed.written]).is_err() {
            say(rt, "replay: the answers could not be written");
            return None;
        }
        (n != 0).then_some(fed.replay)
    }
}

// A whole log. A proved loop has to end, and nothing says that a log does: so turns are counted, up to a number that no run comes to.
pub fn replay<R: Read, W: Write>(rt: &impl Eprint, from: &mut R, to: &mut W) {
    let mut room = Room {
        bytes: [0; BYTES],
        mem: [0; Referee::WORDS],
        out: [0; ROOM],
    };
    let mut log = Replay::start();
    for _ in 0..u64::MAX {
        let Some(next) = room.turn(rt, from, to, log) else {
            break;
        };
        log = next;
    }
}
