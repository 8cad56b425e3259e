// Checks a list of charges, in the file that the first argument names, against a log on standard input: prints the
// sum of the named bonds or the number of the refusal. Of a log that is stopped it says what the report says of the
// stop.
#![tactic(auto)]

ghost use Rattle.std.specs.Prelude.{◌≡◌, ◌≤◌, length, take, IfSome};

use state::Witness;
use std::io::{Error, Read};
use std::rt::Env;

// A line of some words and a number.
fn say(rt: HostRuntime, words: &[u8], n: u64)
    requires { length words.now ≤ 16 }
{
    let mut line = [0u8; 64];
    let number = text::put(&mut line, 0, words);
    let end = text::put_number(&mut line, number, n);
    let whole = text::put(&mut line, end, b"\n");
    buffered::print(rt, &line[..whole]);
}

fn say_answer(rt: HostRuntime, w: Witness, list: &[u8]) {
    match answers::check_list(w, list) {
        Ok(n) => say(rt, b"sum ", n),
        Err(why) => say(rt, b"refused ", u64::from(u8::from(why))),
    }
}

// How many bytes the list has, read to its end, or as much of it as the buffer takes; None where it could not be read,
// which is told. A proved loop has to end, and nothing says that a file does: so the turns are counted, up to a number
// that no run reaches.
fn read_list<R: Read>(rt: HostRuntime, from: &mut R, path: &[u8], list: &mut [u8]) -> Option<usize>
    ensures { IfSome result (λ n. (n ≤ length list.new) × (n ≡ length (take n list.new))) }
{
    let mut have = 0;
    for _ in 0..u64::MAX {
        if list.len() <= have {
            break;
        }
        let filled = buffered::fill(rt, from, path, list, have)?;
        have = filled.have;
        if filled.ended {
            break;
        }
    }
    Some(have)
}

// No list in the layout has more than 393,217 bytes, its count being of 16 bits; so one byte more is all that need be
// read to refuse a longer one. A list that could not be read to its end is not judged.
fn check<R: Read>(rt: HostRuntime, w: Witness, from: &mut R, path: &[u8]) {
    let mut list = [0u8; 393218];
    if let Some(n) = read_list(rt, from, path, &mut list) {
        say_answer(rt, w, &list[..n]);
    }
}

// The log is read before the list.
fn check_log<R: Read>(rt: HostRuntime, from: &mut R, path: &[u8]) {
    let log = stream::read_log(rt, &mut rt.stdin(), false);
    if printer::is_whole(rt, &log) {
        check(rt, log.witness, from, path);
    }
}

fn check_file(rt: HostRuntime, path: &[u8]) {
    match buffered::open_read(rt, path) {
        Ok(mut list) => check_log(rt, &mut list, path),
        Err(why) => buffered::fail(rt, path, &why),
    }
}

// Where standard input is closed, the list would be opened under its number, and be taken for the log.
fn main(rt: HostRuntime) {
    let mut path = [0u8; 4096];
    let Ok(length) = rt.arg(1, &mut path) else {
        buffered::complain(rt, b"usage: ffw_check LIST < LOG\n");
        return;
    };
    if !buffered::is_open(&rt.stdin()) {
        let why = Error::from_raw_os_error(buffered::NOT_OPEN);
        buffered::fail(rt, b"log", &why);
        return;
    }
    check_file(rt, &path[..length]);
}
