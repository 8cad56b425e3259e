// Moves the root up where a log ends: the log on standard input, the places to move it to as arguments, one move after
// another. Of each move a line says whether it was made, or the number of its refusal; then comes the report's summary
// of what is kept. Of a log that is stopped it says what the report says of the stop.
#![tactic(auto)]

ghost use Rattle.std.specs.Prelude.{◌≡◌, ◌≤◌, length};

use model::{Place, Refusal};
use state::Witness;
use std::rt::Env;
use stream::Log;

// A place in decimal digits alone: `parse` takes a sign too.
fn place_in(word: &[u8]) -> Option<Place> {
    if !word.iter().all(|digit| digit.is_ascii_digit()) {
        return None;
    }
    let place = std::str::from_utf8(word).ok()?.parse::<u16>().ok()?;
    Some(Place(place))
}

// The place that the argument with this number names.
fn argument(rt: HostRuntime, number: usize) -> Option<Place> {
    let mut word = [0u8; 4096];
    let length = rt.arg(number, &mut word).ok()?;
    place_in(&word[..length])
}

// Whether every argument names a place, and there is one.
fn all_places(rt: HostRuntime, count: usize) -> bool {
    1 < count && (1..count).all(|i| argument(rt, i).is_some())
}

// What a move came to, after a line's first 32 bytes or fewer.
fn put_outcome(line: &mut [u8], at: usize, outcome: Result<(), Refusal>) -> usize
    requires { (at ≤ 32) × (64 ≤ length line.old) }
    ensures { (result ≤ 63) × (length line.new ≡ length line.old) }
{
    match outcome {
        Ok(()) => text::put(line, at, b" taken"),
        Err(why) => {
            let told = text::put(line, at, b" refused ");
            text::put_number(line, told, u64::from(u8::from(why)))
        }
    }
}

// A line on the move to a place: made, or the number of its refusal. Whether it was written.
fn say(rt: HostRuntime, place: Place, outcome: Result<(), Refusal>) -> bool {
    let mut line = [0u8; 64];
    let words = text::put(&mut line, 0, b"move ");
    let number = text::put_number(&mut line, words, u64::from(place.0));
    let end = put_outcome(&mut line, number, outcome);
    let whole = text::put(&mut line, end, b"\n");
    buffered::print(rt, &line[..whole])
}

// What the moves left, each made on what the last one left. None where a line cannot be written: that is told, and no
// more are made.
fn moves(rt: HostRuntime, w: Witness, count: usize) -> Option<Witness> {
    let mut held = w;
    for i in 1..count {
        if let Some(place) = argument(rt, i) {
            let moved = witness::move_root(held, place);
            if !say(rt, place, moved.outcome) {
                return None;
            }
            held = moved.witness;
        }
    }
    Some(held)
}

// The moves on what a whole log left, and the summary of what they kept.
fn report_moved(rt: HostRuntime, log: Log, count: usize) {
    if let Some(kept) = moves(rt, log.witness, count) {
        let moved = Log {
            witness: kept,
            ..log
        };
        stream::write_end(rt, &moved);
    }
}

fn main(rt: HostRuntime) {
    let count = buffered::arg_count(rt);
    if !all_places(rt, count) {
        buffered::complain(
            rt,
            b"usage: ffw_move PLACE.. < LOG, with places from 0 to 65535\n",
        );
        return;
    }
    let log = stream::read_log(rt, &mut rt.stdin(), false);
    if printer::is_whole(rt, &log) {
        report_moved(rt, log, count);
    }
}
