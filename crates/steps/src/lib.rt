// One turn of reading a log from a file: a call for the report on the bytes at hand, or a read.
#![tactic(auto)]

ghost use Rattle.std.specs.Prelude.{◌≤◌, length};
ghost use Rattle.feeding.specs.Feed.{IsFed};
ghost use Rattle.steps.specs.Turns.{call_of, Advanced, Stepped};

use feeding::Fed;
use std::io::Read;
use turns::Turn;

// The log's first bytes where none was read yet, else the records that are at hand.
fn call(t: &Turn, input: &[u8], output: &mut [u8]) -> Fed
    ensures { IsFed
        (call_of t.now.begun t.now.at_end (length output.old) t.now.witness t.now.records input.now)
        0
        0
        output.old
        result
        output.new }
{
    if t.begun {
        return report::feed(t.witness, t.records, input, 0, output);
    }
    report::open(t.witness, input, t.at_end, output)
}

// One call on the bytes at hand; those that it did not pass over are moved to the front.
fn advance(t: Turn, input: &mut [u8], output: &mut [u8]) -> Turn
    requires { t.have ≤ length input.old }
    ensures { Advanced t input.old output.old result input.new output.new }
{
    let fed = call(&t, &input[..t.have], output);
    let fate = turns::fate_after(fed.pause, t.begun & t.at_end);
    let left = buffered::keep(input, fed.next, t.have);
    Turn {
        fate,
        begun: t.begun | (0 < fed.next),
        at_end: t.at_end,
        have: left,
        records: fed.records,
        witness: fed.witness,
        written: fed.written,
    }
}

// One turn: a call where the bytes at hand are worth one, and what it wrote is written out; else a read.
pub fn step<R: Read>(
    rt: HostRuntime,
    from: &mut R,
    t: Turn,
    lines: bool,
    input: &mut [u8],
    output: &mut [u8],
) -> Turn
    requires { (t.have ≤ length input.old) × (89 ≤ length input.old) }
    ensures { Stepped t input.old (length output.old) result input.new }
{
    if buffered::is_ready(t.begun, t.at_end, &input[..t.have]) {
        let called = advance(t, input, output);
        return turns::tell(rt, called, lines, output);
    }
    turns::refill(rt, from, t, input)
}
