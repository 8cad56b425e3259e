// The report's lines: each is a label and a number, another label and number, and an ending.
#![tactic(auto)]

ghost use Rattle.std.specs.Prelude.{◌+◌, ◌≤◌, ◌++◌, length};
ghost use Rattle.model.specs.Evidence.{clear, broken};
ghost use Rattle.model.specs.Refusals.{refusal_number};
ghost use Rattle.model.specs.Report.{decimal, refused_line, stopped_line, checkpoint_text, member_text, total_text};
ghost use Rattle.text.specs.Put.{Put};

use model::{Height, Place, Refusal, Status};
use text::{put, put_number};

// Two labels, each with its number after it: what stands before a line's ending.
fn pair(buf: &mut [u8], at: usize, first: &[u8], m: u64, second: &[u8], n: u64) -> usize
    requires { at + (length first.now + length second.now + 40) ≤ length buf.old }
    ensures { Put buf.old at (first.now ++ decimal m ++ second.now ++ decimal n)
        buf.new result
        × (result ≤ at + (length first.now + length second.now + 40)) }
{
    let one = put(buf, at, first);
    let two = put_number(buf, one, m);
    let three = put(buf, two, second);
    put_number(buf, three, n)
}

// The line of record number `k`, which the row of this number refuses.
pub fn refused_line(buf: &mut [u8], at: usize, k: u64, number: u8) -> usize
    requires { at + 64 ≤ length buf.old }
    ensures { Put buf.old at (refused_line number k) buf.new result × (result ≤ at + 64) }
{
    let next = pair(buf, at, b"refused ", k, b" number ", u64::from(number));
    put(buf, next, b"\n")
}

// The line of a reading that ends at record number `k`.
pub fn stopped_line(buf: &mut [u8], at: usize, r: Refusal, k: u64) -> usize
    requires { at + 64 ≤ length buf.old }
    ensures { Put buf.old at (stopped_line (refusal_number r) k) buf.new result × (result ≤ at + 64) }
{
    let number = u8::from(r);
    let next = pair(buf, at, b"stopped ", u64::from(number), b" record ", k);
    put(buf, next, b"\n")
}

// A checkpoint's line.
pub fn checkpoint_line(buf: &mut [u8], at: usize, p: Place, h: Height, s: Status) -> usize
    requires { at + 80 ≤ length buf.old }
    ensures { Put buf.old at (checkpoint_text p.0 h.0 s) buf.new result × (result ≤ at + 80) }
{
    let next = pair(
        buf,
        at,
        b"checkpoint ",
        u64::from(p.0),
        b" height ",
        u64::from(h.0),
    );
    let ending: &[u8] = match s {
        Status::Plain => b" plain\n",
        Status::Justified => b" justified\n",
        Status::Final => b" final\n",
    };
    put(buf, next, ending)
}

// The line of a member whose votes break no rule.
pub fn clear_line(buf: &mut [u8], at: usize, id: u16, bond: u64) -> usize
    requires { at + 112 ≤ length buf.old }
    ensures { Put buf.old at (member_text id bond clear) buf.new result × (result ≤ at + 112) }
{
    let next = pair(buf, at, b"member ", u64::from(id), b" bond ", bond);
    put(buf, next, b" clear\n")
}

// The line of a member who broke a rule, with the numbers of the two votes.
pub fn broken_line(buf: &mut [u8], at: usize, id: u16, bond: u64, i: u16, j: u16) -> usize
    requires { at + 112 ≤ length buf.old }
    ensures { Put buf.old at (member_text id bond (broken i j)) buf.new result × (result ≤ at + 112) }
{
    let one = pair(buf, at, b"member ", u64::from(id), b" bond ", bond);
    let two = pair(buf, one, b" broken ", u64::from(i), b" ", u64::from(j));
    put(buf, two, b"\n")
}

// The line of the bonds: of all members, of those who broke a rule, and whether finals conflict.
pub fn total_line(buf: &mut [u8], at: usize, total: u64, named: u64, conflict: bool) -> usize
    requires { at + 80 ≤ length buf.old }
    ensures { Put buf.old at (total_text total named conflict) buf.new result × (result ≤ at + 80) }
{
    let next = pair(buf, at, b"total ", total, b" named ", named);
    let ending: &[u8] = if conflict {
        b" conflict yes\n"
    } else {
        b" conflict no\n"
    };
    put(buf, next, ending)
}
