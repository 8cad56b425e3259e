// A log read from a file to its end, in constant memory: a piece at a time, through the report's calls. What they
// write goes to standard output, before the next piece is read.
#![tactic(auto)]

ghost use Rattle.std.specs.Prelude.{◌≤◌, length};
ghost use Rattle.feeding.specs.Feed.{IsFed, end_call};
ghost use Rattle.stream.specs.Reads.{Reads, Leaves, IsRead};

use feeding::Fed;
use state::Witness;
use std::io::Read;
use turns::{Fate, Turn};

// What is left of a log that was read to its end: the bytes of a record that stays cut, the number of the next
// record, and the witness.
#[derive(Clone, Copy)]
pub struct Log {
    pub fate: Fate,
    pub left: usize,
    pub records: u64,
    pub witness: Witness,
}

// Turn after turn, to the log's end or its stop. A proved loop has to end, and nothing says that a file does: so the
// turns are counted, up to a number that no run reaches.
fn read_pieces<R: Read>(
    rt: HostRuntime,
    from: &mut R,
    lines: bool,
    input: &mut [u8],
    output: &mut [u8],
) -> Turn
    requires { 89 ≤ length input.old }
    ensures { Reads (length output.old) result input.new }
{
    let mut t = turns::start();
    for _ in 0..u64::MAX {
        let Fate::Open = t.fate else {
            return t;
        };
        t = steps::step(rt, from, t, lines, input, output);
    }
    t
}

impl From<Turn> for Log {
    ghost from_gives = { Leaves };

    fn from(t: Turn) -> Self {
        Log {
            fate: t.fate,
            left: t.have,
            records: t.records,
            witness: t.witness,
        }
    }
}

// A log from a file to its end or its stop. With `lines`, the report's lines so far are written to standard output;
// without, only the line that tells a stop.
pub fn read_log<R: Read>(rt: HostRuntime, from: &mut R, lines: bool) -> Log
    ensures { IsRead 65536 result }
{
    let mut input = [0u8; 65536];
    let mut output = [0u8; 65536];
    let t = read_pieces(rt, from, lines, &mut input, &mut output);
    Log::from(t)
}

// The end of a log that was read whole: the line of a record that stays cut, or the summary.
fn put_end(log: &Log, output: &mut [u8]) -> Fed
    ensures { IsFed
        (end_call (length output.old) log.now.witness log.now.records log.now.left)
        0
        0
        output.old
        result
        output.new }
{
    report::close(log.witness, log.records, log.left, output)
}

// That end, to standard output.
pub fn write_end(rt: HostRuntime, log: &Log) {
    let mut output = [0u8; 65536];
    let fed = put_end(log, &mut output);
    if let Fate::Ended = turns::fate_after(fed.pause, true) {
        buffered::print(rt, &output[..fed.written]);
    } else {
        buffered::complain(
            rt,
            b"log: its end cannot be told, since the witness is not sound\n",
        );
    }
}
