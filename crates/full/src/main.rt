// A witness filled to its limits: a log made by a formula, with 128 members, 512 checkpoints, 4,096 votes and one more
// of each, is read whole and asked. The formula gives the byte at each offset. The file `stdout` is what expected.py
// prints, which makes the same log by the same formula and answers by code of its own.
#![tactic(auto)]

ghost use Rattle.std.specs.Prelude.{◌≡◌, ◌+◌, ◌≤◌, ◌<◌, length};

use model::{Place, Refusal, Status};
use state::{Passed, Witness};

// The offsets of the 129th member, the 512th checkpoint record and the 4,097th vote, which find the witness full.
const EXTRA_MEMBER: usize = 1445;

const EXTRA_CHECKPOINT: usize = 34671;

const EXTRA_VOTE: usize = 341936;

// The offset of vote 3,072.
const EARLY: usize = 265136;

// What the bonds of the light members come to.
const LIGHT_SUM: u64 = 58_974;

// The byte of a number that has `below` bytes after it; 0 where the number has no such byte.
fn digit(number: u64, below: usize) -> u8 {
    number.to_le_bytes().get(below).copied().unwrap_or(0)
}

// Byte k of the name of checkpoint p. Names begin alike; after that every second byte is by p, the others by p / 256.
fn name_byte(p: usize, k: usize) -> u8
    requires { (p ≤ 512) × (k < 32) }
{
    if k < 16 {
        return (k * 5 + 1) as u8;
    }
    if k % 2 == 0 {
        return ((p * 7 + k * 3) % 256) as u8;
    }
    (p / 256 + k) as u8
}

// The id of member i. No two are equal: 65521 is a prime.
fn id(i: usize) -> u64
    requires { i ≤ 128 }
{
    ((i * 7919 + 1) % 65521) as u64
}

// The bonds of the six middle members. The first with the next three that are equal, and four heavy members, come to
// exactly two thirds of all; the second in its place to one less.
fn middle_bond(j: usize) -> u64 {
    match j {
        0 => 200_000_000_002,
        1 => 200_000_000_001,
        5 => 200_000_000_000 - LIGHT_SUM,
        _ => 200_000_000_000,
    }
}

// The bond of member i. Of each 21 in turn one is heavy and one is middle, six of each in all.
fn bond(i: usize) -> u64
    requires { i ≤ 128 }
{
    if i % 21 == 20 {
        return 1_000_000_000_000;
    }
    if i % 21 == 10 {
        return middle_bond(i / 21);
    }
    (i * 7919 % 1009 + 1) as u64
}

// The parent of checkpoint p. Of each eight checkpoints five go on with the chain; then come a branch of two from the
// second of the five, and a branch of one from the fourth.
fn parent(p: usize) -> usize
    requires { (1 ≤ p) × (p ≤ 512) }
    ensures { result < p }
{
    if p == 1 {
        return 0;
    }
    match (p - 1) % 8 {
        0 | 5 | 7 => p - 4,
        _ => p - 1,
    }
}

// The height of checkpoint p.
fn height(p: usize) -> u64
    requires { p ≤ 512 }
{
    if p == 0 {
        return 0;
    }
    let low = (p - 1) / 8 * 5;
    let q = (p - 1) % 8;
    if q < 5 {
        return (low + q + 1) as u64;
    }
    (low + q - 2) as u64
}

// The target of link n: the checkpoint after, or a second link to the end of the chain's part.
fn target(n: usize) -> usize
    requires { n < 512 }
    ensures { result ≤ 512 }
{
    if n % 128 == 127 {
        return n - 2;
    }
    n + 1
}

// The source of link n: the target's parent, the parent's parent, or the root.
fn source(n: usize) -> usize
    requires { n < 512 }
    ensures { result ≤ 512 }
{
    match n % 8 {
        0 => parent(n + 1),
        2 | 4 => n - 1,
        5 => n - 3,
        7 => 0,
        _ => n,
    }
}

// Who votes for a link. Five heavy members are a quorum and four are none without middle ones.
#[derive(Clone, Copy)]
enum Crowd {
    FiveHeavy,
    TwoThirds,
    OneBelow,
    FourHeavy,
    Light,
}

// The crowd by a number.
fn crowd_of(c: usize) -> Crowd {
    match c {
        0 => Crowd::FiveHeavy,
        1 => Crowd::TwoThirds,
        2 => Crowd::OneBelow,
        3 => Crowd::FourHeavy,
        _ => Crowd::Light,
    }
}

// The crowd of a link of the chain: link q of the block b of eight.
fn chain_crowd(b: usize, q: usize) -> Crowd {
    match q {
        0 => {
            if b % 16 == 12 {
                Crowd::OneBelow
            } else {
                Crowd::FiveHeavy
            }
        }
        1 => crowd_of(b % 2 + 1),
        2 => Crowd::FiveHeavy,
        3 => match b % 3 {
            0 => Crowd::TwoThirds,
            1 => Crowd::FourHeavy,
            _ => Crowd::FiveHeavy,
        },
        _ => {
            if b % 4 == 3 {
                Crowd::TwoThirds
            } else {
                Crowd::FiveHeavy
            }
        }
    }
}

// The crowd of a link to a branch, and of the link from the root.
fn branch_crowd(b: usize, q: usize) -> Crowd {
    match q {
        5 => {
            if b % 4 == 2 {
                Crowd::Light
            } else {
                Crowd::FiveHeavy
            }
        }
        6 => match b % 8 {
            0 => Crowd::FiveHeavy,
            4 => Crowd::TwoThirds,
            _ => Crowd::Light,
        },
        _ => {
            if b % 16 == 15 {
                Crowd::FiveHeavy
            } else {
                crowd_of(b % 5)
            }
        }
    }
}

// The crowd of link n.
fn crowd_at(n: usize) -> Crowd {
    let b = n / 8;
    let q = n % 8;
    if q < 5 {
        return chain_crowd(b, q);
    }
    branch_crowd(b, q)
}

// Heavy member j of the six, counted round.
fn heavy(j: usize) -> usize
    ensures { result ≤ 128 }
{
    j % 6 * 21 + 20
}

// Middle member j.
fn middle(j: usize) -> usize
    requires { j < 6 }
    ensures { result ≤ 128 }
{
    j * 21 + 10
}

// A light member: the one that the formula meets, or the next where that is heavy or middle.
fn light(n: usize, r: usize) -> usize
    requires { (n < 512) × (r ≤ 8) }
    ensures { result ≤ 128 }
{
    let i = (n * 11 + r * 16) % 128;
    if i % 21 == 10 {
        return i + 1;
    }
    if i % 21 == 20 {
        return i + 1;
    }
    i
}

// The member that votes for link n in round r.
fn voter(n: usize, r: usize) -> usize
    requires { (n < 512) × (r ≤ 8) }
    ensures { result ≤ 128 }
{
    if r < 4 {
        return early_voter(n, r);
    }
    late_voter(n, r)
}

// The first four voters of a link: heavy, but for a light crowd.
fn early_voter(n: usize, r: usize) -> usize
    requires { (n < 512) × (r < 4) }
    ensures { result ≤ 128 }
{
    match crowd_at(n) {
        Crowd::Light => light(n, r),
        _ => heavy(n + r),
    }
}

// The other voters.
fn late_voter(n: usize, r: usize) -> usize
    requires { (n < 512) × (4 ≤ r) × (r ≤ 8) }
    ensures { result ≤ 128 }
{
    match crowd_at(n) {
        Crowd::FiveHeavy => { if r == 4 { heavy(n + r) } else { light(n, r) } }
        Crowd::TwoThirds => { if r == 4 { middle(0) } else { middle(r - 3) } }
        Crowd::OneBelow => middle(r - 3),
        _ => light(n, r),
    }
}

// The source of the vote for link n in round r. The last light voters of most links vote from the root instead.
fn vote_source(n: usize, r: usize) -> usize
    requires { n < 512 }
    ensures { result ≤ 512 }
{
    if r < n % 4 + 5 {
        return source(n);
    }
    match crowd_at(n) {
        Crowd::TwoThirds => source(n),
        Crowd::OneBelow => source(n),
        _ => 0,
    }
}

fn header_byte(at: usize) -> u8
    requires { at < 37 }
{
    match at {
        0 | 1 => b'F',
        2 => b'W',
        3 => 0,
        4 => 1,
        _ => name_byte(0, at - 5),
    }
}

fn member_byte(i: usize, at: usize) -> u8
    requires { (i ≤ 128) × (at < 11) }
{
    if at == 0 {
        return 1;
    }
    if at < 3 {
        return digit(id(i), 2 - at);
    }
    digit(bond(i), 10 - at)
}

fn checkpoint_byte(p: usize, at: usize) -> u8
    requires { (1 ≤ p) × (p ≤ 512) × (at < 65) }
{
    if at == 0 {
        return 2;
    }
    if at < 33 {
        return name_byte(p, at - 1);
    }
    name_byte(parent(p), at - 33)
}

// Vote k: the links in a mixed order, once round for each of their voters, so that a link is whole late in the log.
fn vote_byte(k: usize, at: usize) -> u8
    requires { (k ≤ 4096) × (at < 75) }
{
    let n = k * 37 % 512;
    let r = k / 512;
    if at == 0 {
        return 3;
    }
    if at < 3 {
        return digit(id(voter(n, r)), 2 - at);
    }
    if at < 35 {
        return name_byte(vote_source(n, r), at - 3);
    }
    if at < 67 {
        return name_byte(target(n), at - 35);
    }
    if at < 71 {
        return digit(height(vote_source(n, r)), 70 - at);
    }
    digit(height(target(n)), 74 - at)
}

// The byte of the log at an offset: the header, 129 members, 512 checkpoints and 4,097 votes.
fn log_byte(at: usize) -> u8
    requires { at < 342011 }
{
    if at < 37 {
        return header_byte(at);
    }
    let m = at - 37;
    if m < 1419 {
        return member_byte(m / 11, m % 11);
    }
    let c = m - 1419;
    if c < 33280 {
        return checkpoint_byte(c / 65 + 1, c % 65);
    }
    let v = c - 33280;
    vote_byte(v / 75, v % 75)
}

fn fill(log: &mut [u8])
    requires { length log.old ≤ 342011 }
{
    for (at, byte) in log.iter_mut().enumerate() {
        *byte = log_byte(at);
    }
}

// Prints each piece with a write of its own. A piece that cannot be written is left out, and the rest is still tried.
macro_rules! say {
    ($rt:expr; $($piece:expr),+) => {{
        $(let _ = $rt.print($piece);)+
    }};
}

fn print_refused(rt: HostRuntime, r: Refusal) {
    say!(rt; "refused ", u8::from(r), "\n");
}

fn print_counts(rt: HostRuntime, w: &Witness) {
    let members = w.member_count;
    let checkpoints = w.checkpoint_count;
    let votes = w.vote_count;
    say!(rt; "members ", members, " checkpoints ", checkpoints, " votes ", votes, "\n");
}

// What the record at an offset comes to.
fn print_reading(rt: HostRuntime, w: Witness, log: &[u8], at: usize) {
    say!(rt; "at ", at, ": ");
    match witness::read(w, log, at).outcome {
        Ok(Passed::Nothing) => say!(rt; "nothing left\n"),
        Ok(Passed::Taken) => say!(rt; "taken\n"),
        Ok(Passed::Bundled(n)) => say!(rt; "bundle of ", n, "\n"),
        Err(r) => print_refused(rt, r),
    }
}

fn print_status(rt: HostRuntime, w: Witness, p: u16) {
    match answers::status(w, Place(p)) {
        Ok(Status::Plain) => say!(rt; "p"),
        Ok(Status::Justified) => say!(rt; "j"),
        Ok(Status::Final) => say!(rt; "f"),
        Err(r) => print_refused(rt, r),
    }
}

// A letter for each place, 64 to a line.
fn print_statuses(rt: HostRuntime, w: Witness) {
    for p in 0..512 {
        print_status(rt, w, p);
        if p % 64 == 63 {
            say!(rt; "\n");
        }
    }
}

fn print_support(rt: HostRuntime, w: Witness, s: u16, t: u16) {
    say!(rt; s, " ", t, ": ");
    match answers::support(w, Place(s), Place(t)) {
        Ok(b) => {
            let quorum = if b.quorum { " yes\n" } else { " no\n" };
            say!(rt; b.number, " ", b.bonds, quorum);
        }
        Err(r) => print_refused(rt, r),
    }
}

// The support of every fifth link, counted round, of 128.
fn print_links(rt: HostRuntime, w: Witness) {
    for j in 0..128 {
        let n = j * 5 % 512;
        print_support(rt, w, source(n) as u16, target(n) as u16);
    }
}

// The support of links from the root, and of pairs of places that are no link.
fn print_pairs(rt: HostRuntime, w: Witness) {
    for j in 0..24 {
        print_support(rt, w, 0, j * 21 + 1);
        print_support(rt, w, j * 67 % 512, (j * 131 + 3) % 512);
    }
}

fn print_conflict(rt: HostRuntime, w: Witness) {
    match answers::conflict(w) {
        Ok(true) => say!(rt; "conflict yes\n"),
        Ok(false) => say!(rt; "conflict no\n"),
        Err(r) => print_refused(rt, r),
    }
}

// The entries of a list: id, earlier vote, later vote.
fn print_entries(rt: HostRuntime, list: &[u8]) {
    let (entries, _) = list.get(7..).unwrap_or(&[]).as_chunks::<6>();
    for [a, b, c, d, e, f] in entries {
        let id = u16::from_be_bytes([*a, *b]);
        let earlier = u16::from_be_bytes([*c, *d]);
        let later = u16::from_be_bytes([*e, *f]);
        say!(rt; "charged ", id, " ", earlier, " ", later, "\n");
    }
}

// The entries of a list, and what the checker says of them.
fn print_charges(rt: HostRuntime, w: Witness, list: &[u8]) {
    print_entries(rt, list);
    match answers::check_list(w, list) {
        Ok(sum) => say!(rt; "named ", sum, "\n"),
        Err(r) => print_refused(rt, r),
    }
}

// Our list, which has room for every member.
fn print_list(rt: HostRuntime, w: Witness) {
    let mut buf = [0; 775];
    match answers::write_list(w, &mut buf) {
        Ok(n) => print_charges(rt, w, &buf[..n.min(775)]),
        Err(r) => print_refused(rt, r),
    }
}

// What a log leaves; it has fewer than 5,000 records.
fn left_by(log: &[u8]) -> Witness {
    replay::replay(blank::blank(), log, 5000).read.witness
}

// What the first `end` bytes of the log leave.
fn left_by_first(log: &[u8], end: usize) -> Witness
    requires { end ≤ length log.now }
{
    left_by(&log[..end])
}

fn print_standing(rt: HostRuntime, w: Witness) {
    print_counts(rt, &w);
    print_statuses(rt, w);
    print_conflict(rt, w);
}

// The 129th member comes with no checkpoint yet; row 10 would refuse it later.
fn print_members(rt: HostRuntime, log: &[u8])
    requires { length log.now ≡ 342011 }
{
    let w = left_by_first(log, EXTRA_MEMBER);
    print_counts(rt, &w);
    print_reading(rt, w, log, EXTRA_MEMBER);
    print_conflict(rt, w);
}

// The standings after 3,072 votes, most of which wait for a later vote to justify their source; then those of the log.
fn print_standings(rt: HostRuntime, log: &[u8])
    requires { length log.now ≡ 342011 }
{
    print_standing(rt, left_by_first(log, EARLY));
    print_standing(rt, left_by(log));
}

fn print_rest(rt: HostRuntime, log: &[u8]) {
    let w = left_by(log);
    print_reading(rt, w, log, EXTRA_CHECKPOINT);
    print_reading(rt, w, log, EXTRA_VOTE);
    print_status(rt, w, 512);
    print_links(rt, w);
    print_pairs(rt, w);
    print_support(rt, w, 512, 0);
    print_support(rt, w, 0, 512);
    print_list(rt, w);
}

fn main(rt: HostRuntime) {
    let mut log = [0; 342011];
    fill(&mut log);
    print_members(rt, &log);
    print_standings(rt, &log);
    print_rest(rt, &log);
}
