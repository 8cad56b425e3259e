// The records of a log, one a line, as they stand in it: nothing is judged. The log is on standard input. An unknown
// kind or a cut record is the last line.
#![tactic(auto)]

ghost use Rattle.std.specs.Prelude.{◌≡◌, ◌+◌, ◌*◌, ◌<◌, ◌≤◌, true, length, IfOk, IfSome};
ghost use Rattle.std.specs.ControlFlow.{MatchControlFlow};
ghost use Rattle.model.specs.Log.{record_size};
ghost use Rattle.wire.specs.Kinds.{byte_of};
ghost use Rattle.buffered.specs.Hold.{whole?};

use std::io::Read;
use std::ops::ControlFlow;
use wire::records::{Kind, UnknownKind};

// A number's last digit in base 16. It is computed, so that the build can make many at once: a table would be looked up
// one by one.
fn digit(n: u8) -> u8 {
    let d = n % 16;
    if d < 10 { b'0' + d } else { b'a' - 10 + d }
}

// Bytes in hexadecimal, into the buffer; answers the offset past them.
fn put_hex(out: &mut [u8], at: usize, bytes: &[u8]) -> usize
    requires { at + 2 * length bytes.now ≤ length out.old }
    ensures { result ≡ at + 2 * length bytes.now }
{
    let mut end = at;
    for b in bytes {
        out[end] = digit(*b / 16);
        out[end + 1] = digit(*b);
        end += 2;
    }
    end
}

// Some words and a number, which has at most 20 digits.
fn put_field(out: &mut [u8], at: usize, words: &[u8], n: u64) -> usize
    requires { at + length words.now + 20 ≤ length out.old }
    ensures { result ≤ at + length words.now + 20 }
{
    let number = text::put(out, at, words);
    text::put_number(out, number, n)
}

// Some words and a name, which has 32 bytes.
fn put_name(out: &mut [u8], at: usize, words: &[u8], name: &[u8]) -> usize
    requires { (length name.now ≡ 32) × (at + length words.now + 64 ≤ length out.old) }
    ensures { result ≡ at + length words.now + 64 }
{
    let end = text::put(out, at, words);
    put_hex(out, end, name)
}

// What stands in a record of each kind, after its number. A line has fewer than 256 bytes, of which the number takes
// 20.
fn put_member(bytes: &[u8], out: &mut [u8], at: usize) -> usize
    requires { (11 ≤ length bytes.now) × (at + 235 ≤ length out.old) }
    ensures { result ≤ at + 235 }
{
    let bond = put_field(out, at, b" member ", u64::from(wire::be16(bytes, 1)));
    put_field(out, bond, b" bond ", wire::be64(bytes, 3))
}

fn put_checkpoint(bytes: &[u8], out: &mut [u8], at: usize) -> usize
    requires { (65 ≤ length bytes.now) × (at + 235 ≤ length out.old) }
    ensures { result ≤ at + 235 }
{
    let parent = put_name(out, at, b" checkpoint ", &bytes[1..33]);
    put_name(out, parent, b" under ", &bytes[33..65])
}

// The link of a vote or a bundle: two names, and the heights given for them.
fn put_link(link: &[u8], out: &mut [u8], at: usize) -> usize
    requires { (72 ≤ length link.now) × (at + 188 ≤ length out.old) }
    ensures { result ≤ at + 188 }
{
    let source = &link[..32];
    let target = &link[32..64];
    let to = put_name(out, at, b" from ", source);
    let heights = put_name(out, to, b" to ", target);
    let height = put_field(out, heights, b" heights ", u64::from(wire::be32(link, 64)));
    put_field(out, height, b" ", u64::from(wire::be32(link, 68)))
}

fn put_vote(bytes: &[u8], out: &mut [u8], at: usize) -> usize
    requires { (75 ≤ length bytes.now) × (at + 235 ≤ length out.old) }
    ensures { result ≤ at + 235 }
{
    let link = put_field(out, at, b" vote of ", u64::from(wire::be16(bytes, 1)));
    put_link(&bytes[3..], out, link)
}

fn put_bundle(bytes: &[u8], out: &mut [u8], at: usize) -> usize
    requires { (89 ≤ length bytes.now) × (at + 235 ≤ length out.old) }
    ensures { result ≤ at + 235 }
{
    let bits = text::put(out, at, b" bundle of ");
    let link = put_hex(out, bits, &bytes[1..17]);
    put_link(&bytes[17..], out, link)
}

fn put_quorum(bytes: &[u8], out: &mut [u8], at: usize) -> usize
    requires { (5 ≤ length bytes.now) × (at + 235 ≤ length out.old) }
    ensures { result ≤ at + 235 }
{
    let of = put_field(out, at, b" quorum ", u64::from(wire::be16(bytes, 1)));
    put_field(out, of, b" of ", u64::from(wire::be16(bytes, 3)))
}

#[tactic(auto, unfolding(model::specs::Log::record_size, model::specs::Log::size_of, model::specs::Log::kind_of))]
fn put_record(kind: Kind, bytes: &[u8], out: &mut [u8], at: usize) -> usize
    requires { (record_size (byte_of kind) ≤ length bytes.now) × (at + 235 ≤ length out.old) }
    ensures { result ≤ at + 235 }
{
    match kind {
        Kind::Member => put_member(bytes, out, at),
        Kind::Checkpoint => put_checkpoint(bytes, out, at),
        Kind::Vote => put_vote(bytes, out, at),
        Kind::Quorum => put_quorum(bytes, out, at),
        Kind::Bundle => put_bundle(bytes, out, at),
    }
}

// The line of record k, of that kind or of one that is unknown.
fn put_line(
    k: u64,
    kind: Result<Kind, UnknownKind>,
    bytes: &[u8],
    out: &mut [u8],
    at: usize,
) -> usize
    requires whole { IfOk kind (λ known. record_size (byte_of known) ≤ length bytes.now) }
    requires room { at + 256 ≤ length out.old }
    ensures { result ≤ at + 256 }
{
    let number = text::put_number(out, at, k);
    let end = match kind {
        Ok(known) => put_record(known, bytes, out, number),
        Err(UnknownKind(byte)) => put_field(out, number, b" unknown kind ", u64::from(byte)),
    };
    text::put(out, end, b"\n")
}

// What was written of the records at hand: the offset reached, the number of the next record, and how many bytes of
// text.
#[derive(Clone, Copy)]
struct Lines {
    next: usize,
    records: u64,
    written: usize,
}

// One line more. An unknown kind is the last: then only how many bytes of text there are counts. After the last number
// of 64 bits they would begin again; no log is that long.
fn put_one(r: Lines, bytes: &[u8], out: &mut [u8]) -> ControlFlow<usize, Lines>
    requires bytes_value { (whole? bytes.now ≡ true) × (r.next + length bytes.now < 18446744073709551616) }
    requires written_in_bounds { r.written + 256 ≤ length out.old }
    ensures { MatchControlFlow result (λ lines. (r.next < lines.next) × (lines.next ≤ r.next + length bytes.now) × (lines.written ≤ r.written + 256)) (λ written. written ≤ r.written + 256) }
{
    let kind = Kind::try_from(bytes[0]);
    let written = put_line(r.records, kind, bytes, out, r.written);
    match kind {
        Ok(known) => ControlFlow::Continue(Lines {
            next: r.next + known.size(),
            records: r.records.wrapping_add(1),
            written,
        }),
        Err(_) => ControlFlow::Break(written),
    }
}

// The lines of the whole records, as many as there is room for; or how many bytes of text there are, where an unknown
// kind is the last.
fn put_lines(input: &[u8], k: u64, out: &mut [u8]) -> ControlFlow<usize, Lines>
    ensures { MatchControlFlow result (λ lines. (lines.next ≤ length input.now) × (lines.written ≤ length out.new)) (λ written. written ≤ length out.new) }
{
    let mut r = Lines {
        next: 0,
        records: k,
        written: 0,
    };
    while 256 <= out.len() - r.written && buffered::is_whole(&input[r.next..]) {
        r = put_one(r, &input[r.next..], out)?;
    }
    ControlFlow::Continue(r)
}

// Where the dump stands: whether the header was read, whether the file has no more, how many bytes are at hand, and
// the number of the next record.
#[derive(Clone, Copy)]
struct Dump {
    begun: bool,
    at_end: bool,
    have: usize,
    records: u64,
}

fn put_header(head: &[u8], out: &mut [u8]) -> usize
    requires { (37 ≤ length head.now) × (256 ≤ length out.old) }
    ensures { result ≤ length out.new }
{
    let letters = &head[..3];
    let name = &head[5..37];
    let mark = text::put(out, 0, b"mark ");
    let version = put_hex(out, mark, letters);
    let root = put_field(out, version, b" version ", u64::from(wire::be16(head, 3)));
    let end = put_name(out, root, b" root ", name);
    text::put(out, end, b"\n")
}

// Where the dump stands after the header, and after some records; None where it goes no further.
fn show_header(rt: HostRuntime, t: Dump, input: &mut [u8], out: &mut [u8]) -> Option<Dump>
    requires { (37 ≤ t.have) × (t.have ≤ length input.old) × (256 ≤ length out.old) }
    ensures { IfSome result (λ r. r.have ≤ length input.new) }
{
    let n = put_header(&input[..t.have], out);
    if !buffered::print(rt, &out[..n]) {
        return None;
    }
    let have = buffered::keep(input, 37, t.have);
    Some(Dump {
        begun: true,
        have,
        ..t
    })
}

fn show_records(rt: HostRuntime, t: Dump, input: &mut [u8], out: &mut [u8]) -> Option<Dump>
    requires { t.have ≤ length input.old }
    ensures { IfSome result (λ r. r.have ≤ length input.new) }
{
    match put_lines(&input[..t.have], t.records, out) {
        ControlFlow::Continue(lines) => {
            if !buffered::print(rt, &out[..lines.written]) {
                return None;
            }
            let have = buffered::keep(input, lines.next, t.have);
            Some(Dump {
                have,
                records: lines.records,
                ..t
            })
        }
        ControlFlow::Break(written) => {
            buffered::print(rt, &out[..written]);
            None
        }
    }
}

// The end of the log: a header or a record that stays cut is told.
fn show_end(rt: HostRuntime, t: Dump, out: &mut [u8])
    requires { 256 ≤ length out.old }
{
    if !t.begun {
        buffered::print(rt, b"header cut\n");
    } else if 0 < t.have {
        let number = text::put_number(out, 0, t.records);
        let end = text::put(out, number, b" cut\n");
        buffered::print(rt, &out[..end]);
    }
}

// What is at hand: the header, the whole records, or the log's end.
fn show(rt: HostRuntime, t: Dump, input: &mut [u8], out: &mut [u8]) -> Option<Dump>
    requires { (t.have ≤ length input.old) × (256 ≤ length out.old) }
    ensures { IfSome result (λ r. r.have ≤ length input.new) }
{
    if t.begun && buffered::is_whole(&input[..t.have]) {
        return show_records(rt, t, input, out);
    }
    if !t.begun && 37 <= t.have {
        return show_header(rt, t, input, out);
    }
    show_end(rt, t, out);
    None
}

// One turn: what is at hand, or a read where that is too little. None ends the dump.
fn step<R: Read>(
    rt: HostRuntime,
    from: &mut R,
    t: Dump,
    input: &mut [u8],
    out: &mut [u8],
) -> Option<Dump>
    requires { (t.have ≤ length input.old) × (89 ≤ length input.old) × (256 ≤ length out.old) }
    ensures { IfSome result (λ r. r.have ≤ length input.new) }
{
    if buffered::is_ready(t.begun, t.at_end, &input[..t.have]) {
        return show(rt, t, input, out);
    }
    let filled = buffered::fill(rt, from, b"log", input, t.have)?;
    Some(Dump {
        at_end: filled.ended,
        have: filled.have,
        ..t
    })
}

// A proved loop has to end, and nothing says that a file does: so the turns are counted, up to a number that no run
// reaches.
fn dump_log<R: Read>(rt: HostRuntime, from: &mut R, input: &mut [u8], out: &mut [u8])
    requires { (89 ≤ length input.old) × (256 ≤ length out.old) }
{
    let mut t = Dump {
        begun: false,
        at_end: false,
        have: 0,
        records: 0,
    };
    for _ in 0..u64::MAX {
        let Some(next) = step(rt, from, t, input, out) else {
            return;
        };
        t = next;
    }
}

fn main(rt: HostRuntime) {
    let mut input = [0u8; 65536];
    let mut out = [0u8; 65536];
    dump_log(rt, &mut rt.stdin(), &mut input, &mut out);
}
