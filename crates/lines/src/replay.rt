// A log, a piece at a time: each line gets its answer line.
ghost use Rattle.std.specs.Prelude.{◌≡◌, true, false, [], ◌+◌, ◌*◌, ◌≤◌, length};
ghost use Rattle.numbers.specs.Refusals.{numbered, number_of};
ghost use Rattle.numbers.specs.Rules.{least};
ghost use Rattle.numbers.specs.Frames.{big};
ghost use Rattle.tables.specs.State.{empty, boot};
ghost use Rattle.text.specs.Text.{cut};
ghost use Rattle.text.specs.Answers.{answer_bytes};
ghost use Rattle.text.specs.Line.{kept, held};
ghost use Rattle.text.specs.Walks.{feeds};
ghost use Rattle.lines.specs.Pieces.{lines_in, piece_rules, piece, log_of, reached};
ghost use Rattle.lines.specs.Walks.{turned, answered, way, gone, closed};

use calls::referee;
use calls::referee::Referee;
use numbers::answers::Seen;
use numbers::frames;
use numbers::frames::Action;
use numbers::refusals::Refusal;
use tables::state::Tables;
use text::line::Line;
use text::{answers, input};

// Where a log stands between two pieces: the line that is not finished, whether the boot line has come, the tables.
#[derive(Clone, Copy, Debug, PartialEq, Eq)]
pub struct Replay {
    pub line: Line,
    pub booted: bool,
    pub tables: Tables,
}

// What a piece comes to: its number, how many bytes of answers were written, where the log then stands.
#[derive(Clone, Copy, Debug, PartialEq, Eq)]
pub struct Fed {
    pub number: u8,
    pub written: usize,
    pub replay: Replay,
}

impl Replay {
    // ── one line ──
    // A function pays at entry for each local that holds tables: so the boot stands apart from what every line goes through.
    // The first frame: the mask of the hypervisor's pages, then the region's.
    fn boot(&mut self, frame: &[u8])
        ensures { self.new ≡ record {
          line = self.old.line;
          booted = true;
          tables = boot (big 8 frame.now 0) (big 8 frame.now 8);
        } }
    {
        self.booted = true;
        self.tables = Tables::boot(frames::word(frame, 0), frames::word(frame, 8));
    }

    // What a line gets, by what it says: nothing gets 3, the first frame boots, each later one is an action.
    fn turn(&mut self, heard: Option<[u8; Action::BYTES]>, mem: &mut [u64]) -> Seen
        ensures { turned result self.new mem.new ≡ answered heard (log_of self.old mem.old) }
    {
        let Some(frame) = heard else {
            return Seen::refused(Refusal::NotAFrame);
        };
        if !self.booted {
            self.boot(&frame);
            return Seen::accepted();
        }
        referee::take_in_place(&mut self.tables, Action::decode(&frame), mem)
    }

    // ── many lines ──
    // The lines that a piece ends; the bytes after the last feed are kept.
    fn each_line(mut self, bytes: &[u8], mem: &mut [u64], out: &mut [u8]) -> Fed
        requires { feeds bytes.now * answer_bytes ≤ length out.old }
        ensures { reached result mem.new out.new ≡ gone (held self.line) bytes.now (way self mem.old out.old 0) }
    {
        let mut line = self.line.tidy();
        let mut written: usize = 0;
        let mut rest = bytes;
        while let Some(end) = input::line_end(rest, 0) {
            let seen = self.turn(line.hear_with(&rest[..end]), mem);
            answers::put(out, written, seen);
            line = Line::empty();
            written += answers::BYTES;
            rest = &rest[end + 1..];
        }
        self.line = line.add(rest);
        Fed {
            number: 0,
            written,
            replay: self,
        }
    }

    // ── before ──
    // 1 for lengths, 2 for tables that are not well formed. A line left open counts where the log ends.
    fn check(self, last: bool, bytes: &[u8], memory: usize, room: usize) -> Result<(), Refusal>
        ensures { numbered result ≡ least (piece_rules (length (lines_in last (cut (held self.line) bytes.now))) self.tables memory room) }
    {
        let lines = input::feeds(bytes) + usize::from(last & self.line.is_open(bytes));
        if (memory != Referee::WORDS) | (room / answers::BYTES < lines) {
            return Err(Refusal::Lengths);
        }
        if !order::wf(self.tables) {
            return Err(Refusal::Disorder);
        }
        Ok(())
    }

    // ── calls ──
    // Before the first byte of a log.
    pub fn start() -> Replay
        ensures { result ≡ record { line = kept []; booted = false; tables = empty } }
    {
        Replay {
            line: Line::empty(),
            booted: false,
            tables: Tables::empty(),
        }
    }

    // A piece of a log, of any length.
    pub fn feed(mut self, bytes: &[u8], mem: &mut [u64], out: &mut [u8]) -> Fed
        ensures { reached result mem.new out.new
            ≡ piece false self.line (log_of self mem.old) bytes.now out.old }
    {
        if let Err(refusal) = self.check(false, bytes, mem.len(), out.len()) {
            return Fed::refused(refusal, self);
        }
        self.each_line(bytes, mem, out)
    }

    // The last piece, or the whole log: a last line may lack its feed.
    pub fn end(mut self, bytes: &[u8], mem: &mut [u64], out: &mut [u8]) -> Fed
        ensures { reached result mem.new out.new
            ≡ piece true self.line (log_of self mem.old) bytes.now out.old }
    {
        if let Err(refusal) = self.check(true, bytes, mem.len(), out.len()) {
            return Fed::refused(refusal, self);
        }
        self.each_line(bytes, mem, out).close(mem, out)
    }
}

impl Fed {
    fn refused(refusal: Refusal, replay: Replay) -> Fed
        ensures { result ≡ record { number = number_of refusal; written = 0; replay = replay } }
    {
        Fed {
            number: u8::from(refusal),
            written: 0,
            replay,
        }
    }

    // The end of the log: a line that is not finished is a line.
    fn close(mut self, mem: &mut [u64], out: &mut [u8]) -> Fed
        requires accepted { self.number ≡ 0 }
        requires room { (self.replay.line.count ≡ 0 → ⊥) → self.written + answer_bytes ≤ length out.old }
        ensures { reached result mem.new out.new ≡ closed (reached self mem.old out.old) }
    {
        let last = self.replay.line;
        if last.count != 0 {
            let seen = self.replay.turn(last.hear(), mem);
            answers::put(out, self.written, seen);
            self.written += answers::BYTES;
        }
        self.replay.line = Line::empty();
        self
    }
}
