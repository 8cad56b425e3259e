// Where reading a log from a file stands, and what a turn does beside its call: what the call wrote is written to
// standard output, or more of the file is read.
#![tactic(auto)]

ghost use Rattle.std.specs.Prelude.{◌≡◌, cond, ◌≤◌, ◌<◌, length};
ghost use Rattle.feeding.specs.Feed.{paused_of};
ghost use Rattle.turns.specs.Turns.{Starts, fate_of, BeginsLast, Told, Refilled};

use feeding::Pause;
use model::Refusal;
use state::Witness;
use std::io::Read;

// How reading a log stands: it goes on; all of the log was read, and its end is still to be told; the report has
// ended; or it cannot go on, which was told on standard error.
#[derive(Clone, Copy, Debug, PartialEq, Eq)]
pub enum Fate {
    Open,
    Whole,
    Ended,
    Failed,
}

// Where reading stands: whether the header was read, whether the file has no more, how many bytes at the front of the
// input are at hand, the number of the next record, the witness, and how many bytes of the output are to be written
// out.
#[derive(Clone, Copy)]
pub struct Turn {
    pub fate: Fate,
    pub begun: bool,
    pub at_end: bool,
    pub have: usize,
    pub records: u64,
    pub witness: Witness,
    pub written: usize,
}

// What follows a call that paused so, or was refused; `last` says that the log has no more bytes.
pub fn fate_after(p: Result<Pause, Refusal>, last: bool) -> Fate
    ensures { result ≡ fate_of last (paused_of p) }
{
    match p {
        Ok(Pause::Wants) => {
            if last {
                return Fate::Whole;
            }
            Fate::Open
        }
        Ok(Pause::Full) => Fate::Open,
        Ok(Pause::OutOfNumbers) => Fate::Failed,
        Ok(Pause::Ended) => Fate::Ended,
        Err(_) => Fate::Failed,
    }
}

// Where the last line of a text begins.
fn last_line(output: &[u8]) -> usize
    ensures { BeginsLast output.now (length output.now) result }
{
    let Some((_, before)) = output.split_last() else {
        return 0;
    };
    before
        .iter()
        .rposition(|byte| *byte == b'\n')
        .map_or(0, |i| i + 1)
}

// Writes out a text: every line, or, where only a stop is to be told, the line that tells it. Answers whether that was
// done.
fn print(rt: HostRuntime, text: &[u8], lines: bool, fate: Fate) -> bool {
    if lines {
        return buffered::print(rt, text);
    }
    if let Fate::Ended = fate {
        return buffered::print(rt, &text[last_line(text)..]);
    }
    true
}

// The fate, where nothing failed.
fn unless_failed(fate: Fate, failed: bool) -> Fate
    ensures { result ≡ cond failed Fate.Failed fate }
{
    if failed { Fate::Failed } else { fate }
}

// What the call wrote is written out. Where that cannot be done, reading goes no further.
pub fn tell(rt: HostRuntime, t: Turn, lines: bool, output: &[u8]) -> Turn
    requires { t.written ≤ length output.now }
    ensures { Told t result }
{
    if let Fate::Failed = t.fate {
        buffered::complain(
            rt,
            b"log: no record number is left, or the witness is not sound\n",
        );
    }
    let is_told = print(rt, &output[..t.written], lines, t.fate);
    Turn {
        fate: unless_failed(t.fate, !is_told),
        written: 0,
        ..t
    }
}

// One read. It is made only where the bytes at hand are too few for a call, so the buffer has room.
pub fn refill<R: Read>(rt: HostRuntime, from: &mut R, t: Turn, input: &mut [u8]) -> Turn
    requires { t.have < length input.old }
    ensures { Refilled t input.old result input.new }
{
    match buffered::fill(rt, from, b"log", input, t.have) {
        Some(filled) => Turn {
            fate: Fate::Open,
            at_end: filled.ended,
            have: filled.have,
            written: 0,
            ..t
        },
        None => Turn {
            fate: unless_failed(Fate::Open, true),
            written: 0,
            ..t
        },
    }
}

// Nothing is read yet.
pub fn start() -> Turn
    ensures { Starts result }
{
    Turn {
        fate: Fate::Open,
        begun: false,
        at_end: false,
        have: 0,
        records: 0,
        witness: blank::blank(),
        written: 0,
    }
}
