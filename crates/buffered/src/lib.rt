// The bytes of a log in a buffer: read from a reader, looked at, and kept; and text that is written to one of the
// standard streams. A call that a signal cut off before its first byte is made again. What fails is told on standard
// error, once.
#![tactic(auto)]

ghost use Rattle.std.specs.Prelude.{◌≡◌, true, ◌-◌, ◌<◌, ◌≤◌, length, take, drop, IfSome, MatchOption};
ghost use Rattle.buffered.specs.Hold.{whole?, ready?, IsFilled};

use std::env::FillError;
use std::fs::File;
use std::io::{Cursor, Error, ErrorKind, Read, Result, Write};
use std::os::fd::AsFd;
use std::rt::Env;

// What the system answers of a descriptor that is not open (EBADF), and what is said of a path that is not UTF-8 text,
// which std opens none by (EILSEQ).
pub const NOT_OPEN: i32 = 9;

const NOT_TEXT: i32 = 84;

// How many bytes are at hand after a read, and whether the file has ended.
#[derive(Clone, Copy, Debug, PartialEq, Eq)]
pub struct Filled {
    pub have: usize,
    pub ended: bool,
}

// Whether the call was cut off by a signal before its first byte.
fn is_interrupted(why: &Error) -> bool {
    why.kind() == ErrorKind::Interrupted
}

// One read into the buffer, behind the bytes at hand; None where it failed, which is told. There is room for one byte
// at least, so that a read of none is the file's end. A read that was interrupted brings nothing: whoever wants more
// reads again.
pub fn fill<R: Read>(
    rt: HostRuntime,
    from: &mut R,
    name: &[u8],
    input: &mut [u8],
    have: usize,
) -> Option<Filled>
    requires { have < length input.old }
    ensures filled { MatchOption result (IsFilled have input.old have input.new) (λ r. IsFilled have input.old r.have input.new) }
    ensures at_end { IfSome result (λ r. r.ended ≡ true → r.have ≡ have) }
{
    match from.read(&mut input[have..]) {
        Ok(bytes) => Some(Filled {
            have: have + bytes,
            ended: bytes == 0,
        }),
        Err(why) => {
            if is_interrupted(&why) {
                return Some(Filled { have, ended: false });
            }
            fail(rt, name, &why);
            None
        }
    }
}

// Moves the bytes from `from` to `have` to the front of the buffer; answers how many they are.
pub fn keep(input: &mut [u8], from: usize, have: usize) -> usize
    requires { (from ≤ have) × (have ≤ length input.old) }
    ensures value { (result ≡ have - from) × (result ≤ length input.new) }
    ensures input_after { take result input.new ≡ drop from (take have input.old) }
{
    input.copy_within(from..have, 0);
    have - from
}

// Whether the bytes begin with a whole record, or with a kind that is unknown: then no more need come to go on.
pub fn is_whole(bytes: &[u8]) -> bool
    ensures { result ≡ whole? bytes.now }
{
    let Some(kind) = bytes.first() else {
        return false;
    };
    wire::records::record_size(*kind) <= bytes.len()
}

// Whether the bytes at hand are worth a call: a header, a whole record, a kind that is unknown, or all that is left
// of the log. `begun` says that the header was read.
pub fn is_ready(begun: bool, at_end: bool, bytes: &[u8]) -> bool
    ensures { result ≡ ready? begun at_end bytes.now }
{
    if at_end {
        return true;
    }
    if begun {
        return is_whole(bytes);
    }
    37 <= bytes.len()
}

// Whether the descriptor is open. Asking for a second one of the same file changes nothing, and fails in this way only
// where it is not.
pub fn is_open<F: AsFd>(of: &F) -> bool {
    match of.as_fd().try_clone_to_owned() {
        Ok(_) => true,
        Err(why) => why.raw_os_error() != Some(NOT_OPEN),
    }
}

// The file of that name, to be read.
pub fn open_read(rt: HostRuntime, path: &[u8]) -> Result<File> {
    let Ok(name) = std::str::from_utf8(path) else {
        return Err(Error::from_raw_os_error(NOT_TEXT));
    };
    File::open(&rt, name)
}

// How many arguments there are, the program's name among them. One that is longer than the byte that is asked for is
// there too.
pub fn arg_count(rt: HostRuntime) -> usize {
    let mut first = [0u8; 1];
    for i in 0..usize::MAX {
        if let Err(FillError::NotPresent) = rt.arg(i, &mut first) {
            return i;
        }
    }
    usize::MAX
}

// Writes all of the bytes. std's `write_all` has other words for a write of none. A proved loop has to end, and nothing
// says that signals do: so the calls are counted, up to a number that no run reaches.
fn write_all<W: Write>(to: &mut W, bytes: &[u8]) -> Result<()> {
    let mut rest = bytes;
    for _ in 0..u64::MAX {
        if rest.is_empty() {
            return Ok(());
        }
        match to.write(rest) {
            Ok(0) => return Err(Error::from(ErrorKind::WriteZero)),
            Ok(put) => rest = &rest[put..],
            Err(why) => {
                if !is_interrupted(&why) {
                    return Err(why);
                }
            }
        }
    }
    Err(Error::from(ErrorKind::Interrupted))
}

// Writes the bytes to standard output; answers whether that was done. Where nobody reads them any more, as after
// `| head -1`, there is nothing to tell.
pub fn print(rt: HostRuntime, bytes: &[u8]) -> bool {
    match write_all(&mut rt.stdout(), bytes) {
        Ok(()) => true,
        Err(why) => {
            if why.kind() != ErrorKind::BrokenPipe {
                fail(rt, b"standard output", &why);
            }
            false
        }
    }
}

// Writes a line to standard error. Where that fails too there is no one left to tell.
pub fn complain(rt: HostRuntime, line: &[u8]) {
    let _ = write_all(&mut rt.stderr(), line);
}

// How many bytes stand before the last ` (`; all where there is none.
fn before_number(text: &[u8]) -> usize
    ensures { result ≤ length text.now }
{
    text.windows(2)
        .rposition(|pair| pair == b" (".as_slice())
        .unwrap_or(text.len())
}

// Writes a line to standard error: what failed, a colon, and the system's words for why, without the number that std
// sets behind them.
pub fn fail(rt: HostRuntime, what: &[u8], why: &Error) {
    let mut words = Cursor::new([0u8; 256]);
    let _ = write!(words, "{why}");
    let n = words.position().min(256) as usize;
    let buf = words.into_inner();
    let text = &buf[..n];
    complain(rt, what);
    complain(rt, b": ");
    complain(rt, &text[..before_number(text)]);
    complain(rt, b"\n");
}
