// Full trees whose names are alike in all but two bytes: a log made by a formula is read, and every name of it is
// looked up in the table that it leaves, among all names and among the first 256. The places found are printed; then
// those of a name with one byte changed, whether a name stands twice, and how much was read as the log has it. The file
// `stdout` is what expected.py prints.
#![tactic(auto)]

ghost use Rattle.std.specs.Prelude.{◌≡◌, ◌+◌, ◌≤◌, ◌<◌, length};

use model::{MAX_CHECKPOINTS, NAME_BYTES};
use names::{find_name, names_twice};
use state::Witness;

// Where the table has the name of checkpoint 511.
const LAST_NAME: usize = 16352;

// Byte k of the name of checkpoint p: names differ in bytes d and d + 1.
fn name_byte(d: usize, p: usize, k: usize) -> u8
    requires { (d < 32) × (p < 512) × (k < 32) }
{
    if k == d {
        return (p / 256) as u8;
    }
    if k == d + 1 {
        return (p % 256) as u8;
    }
    (k * 5 + 1) as u8
}

fn header_byte(d: usize, at: usize) -> u8
    requires { (d < 32) × (at < 37) }
{
    match at {
        0 | 1 => b'F',
        2 => b'W',
        3 => 0,
        4 => 1,
        _ => name_byte(d, 0, at - 5),
    }
}

// The one member: id 7, bond 1.
fn member_byte(at: usize) -> u8 {
    match at {
        0 => 1,
        2 => 7,
        10 => 1,
        _ => 0,
    }
}

// Checkpoint p, under the one before it.
fn checkpoint_byte(d: usize, p: usize, at: usize) -> u8
    requires { (d < 32) × (1 ≤ p) × (p < 512) × (at < 65) }
{
    if at == 0 {
        return 2;
    }
    if at < 33 {
        return name_byte(d, p, at - 1);
    }
    name_byte(d, p - 1, at - 33)
}

// The byte of a number of 32 bits below 512 that has `below` bytes after it.
fn height_byte(n: usize, below: usize) -> u8
    requires { n < 512 }
{
    match below {
        0 => (n % 256) as u8,
        1 => (n / 256) as u8,
        _ => 0,
    }
}

// The member's vote for the step from the checkpoint before p to p.
fn vote_byte(d: usize, p: usize, at: usize) -> u8
    requires { (d < 32) × (1 ≤ p) × (p < 512) × (at < 75) }
{
    if at < 3 {
        return [3, 0, 7][at];
    }
    if at < 35 {
        return name_byte(d, p - 1, at - 3);
    }
    if at < 67 {
        return name_byte(d, p, at - 35);
    }
    if at < 71 {
        return height_byte(p - 1, 70 - at);
    }
    height_byte(p, 74 - at)
}

// The byte of the log at an offset: the header, a member, 511 checkpoints and 511 votes.
fn log_byte(d: usize, at: usize) -> u8
    requires { (d < 32) × (at < 71588) }
{
    if at < 37 {
        return header_byte(d, at);
    }
    if at < 48 {
        return member_byte(at - 37);
    }
    let c = at - 48;
    if c < 33215 {
        return checkpoint_byte(d, c / 65 + 1, c % 65);
    }
    let v = c - 33215;
    vote_byte(d, v / 75 + 1, v % 75)
}

fn fill(log: &mut [u8], d: usize)
    requires { (length log.old ≤ 71588) × (d < 32) }
{
    for (at, byte) in log.iter_mut().enumerate() {
        *byte = log_byte(d, at);
    }
}

// Where the log has the name of checkpoint p.
fn name_at(p: usize) -> usize
    requires { p < 512 }
    ensures { result + 32 ≤ 71588 }
{
    if p == 0 {
        return 5;
    }
    p * 65 - 16
}

// Prints each piece with a write of its own. A piece that cannot be written is left out, and the rest is still tried.
macro_rules! say {
    ($rt:expr; $($piece:expr),+) => {{
        $(let _ = $rt.print($piece);)+
    }};
}

// The place of each of the 512 names among the first `count`, or `count` where it is not among them; 16 to a line.
fn print_places(rt: HostRuntime, w: &Witness, count: usize, log: &[u8])
    requires { (count ≤ 512) × (length log.now ≡ 71588) }
{
    for p in 0..MAX_CHECKPOINTS {
        let place = find_name(&w.names, count, log, name_at(p)).unwrap_or(count);
        say!(rt; place, " ");
        if p % 16 == 15 {
            say!(rt; "\n");
        }
    }
}

// The name of s at `at`, with one bit of byte k changed.
fn changed(s: &[u8], at: usize, k: usize) -> [u8; 32]
    requires { (at + 32 ≤ length s.now) × (k < 32) }
{
    let mut name = [0; 32];
    name.copy_from_slice(&s[at..at + 32]);
    name[k] ^= 128;
    name
}

// The place of the name of checkpoint 300 with each of its bytes changed in turn.
fn print_changed(rt: HostRuntime, w: &Witness, log: &[u8])
    requires { length log.now ≡ 71588 }
{
    for k in 0..32 {
        let name = changed(log, name_at(300), k);
        let place = find_name(&w.names, MAX_CHECKPOINTS, &name, 0).unwrap_or(MAX_CHECKPOINTS);
        say!(rt; place, " ");
    }
    say!(rt; "\n");
}

fn print_twice(rt: HostRuntime, names: &[u8; NAME_BYTES], count: usize)
    requires { count ≤ 512 }
{
    if names_twice(names, count) {
        say!(rt; "a name stands twice\n");
    } else {
        say!(rt; "no name stands twice\n");
    }
}

// Whether a name stands twice in the table, and in one where checkpoint 511 has the name of checkpoint 5; then in that
// table without its last name.
fn print_repeated(rt: HostRuntime, w: &Witness, d: usize)
    requires { d < 31 }
{
    let mut names = w.names;
    print_twice(rt, &names, 512);
    names[LAST_NAME + d] = 0;
    names[LAST_NAME + d + 1] = 5;
    print_twice(rt, &names, 512);
    print_twice(rt, &names, 511);
}

// Whether checkpoint i + 1 was read with checkpoint i as parent, and the vote for this step between these two.
fn is_step_held(w: &Witness, i: usize) -> bool
    requires { i < 511 }
{
    let parent = usize::from(w.parents[i + 1].0);
    let source = usize::from(w.sources[i].0);
    let target = usize::from(w.targets[i].0);
    parent == i && source == i && target == i + 1
}

// The tree of names that differ in bytes d and d + 1; its first 256 names differ in one byte alone. Then how many steps
// of the chain the witness holds as the log has them.
fn print_tree(rt: HostRuntime, d: usize)
    requires { d < 31 }
{
    let mut log = [0; 71588];
    fill(&mut log, d);
    let w = replay::replay(blank::blank(), &log, 2000).read.witness;
    print_places(rt, &w, 512, &log);
    print_places(rt, &w, 256, &log);
    print_changed(rt, &w, &log);
    print_repeated(rt, &w, d);
    let steps = (0..511).filter(|i| is_step_held(&w, *i)).count();
    say!(rt; steps, " steps as the log has them\n");
}

// Names alike in their first 30 bytes, in their last 30, and in all but bytes 15 and 16, the end of one word and the
// beginning of the next.
fn main(rt: HostRuntime) {
    print_tree(rt, 30);
    print_tree(rt, 0);
    print_tree(rt, 15);
}
