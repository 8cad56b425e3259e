// The worked session of document 01, read record by record: what each reading comes to, then the standings, the
// conflict answer, our list and what the checker says of it. Then the same log by the calls that read many records: in
// batches, whole, and asked.
#![tactic(auto)]

use model::{Place, Refusal, Status};
use reader::Batch;
use state::{Outcome, Passed, Witness};

const LOG: [u8; 1005] = [
    70, 70, 87, 0, 1, 82, 82, 82, 82, 82, 82, 82, 82, 82, 82, 82, 82, 82, 82, 82, 82, 82, 82, 82,
    82, 82, 82, 82, 82, 82, 82, 82, 82, 82, 82, 82, 82, 1, 0, 1, 0, 0, 0, 0, 0, 0, 0, 1, 1, 0, 2,
    0, 0, 0, 0, 0, 0, 0, 1, 1, 0, 3, 0, 0, 0, 0, 0, 0, 0, 1, 2, 65, 65, 65, 65, 65, 65, 65, 65, 65,
    65, 65, 65, 65, 65, 65, 65, 65, 65, 65, 65, 65, 65, 65, 65, 65, 65, 65, 65, 65, 65, 65, 65, 82,
    82, 82, 82, 82, 82, 82, 82, 82, 82, 82, 82, 82, 82, 82, 82, 82, 82, 82, 82, 82, 82, 82, 82, 82,
    82, 82, 82, 82, 82, 82, 82, 2, 66, 66, 66, 66, 66, 66, 66, 66, 66, 66, 66, 66, 66, 66, 66, 66,
    66, 66, 66, 66, 66, 66, 66, 66, 66, 66, 66, 66, 66, 66, 66, 66, 82, 82, 82, 82, 82, 82, 82, 82,
    82, 82, 82, 82, 82, 82, 82, 82, 82, 82, 82, 82, 82, 82, 82, 82, 82, 82, 82, 82, 82, 82, 82, 82,
    2, 67, 67, 67, 67, 67, 67, 67, 67, 67, 67, 67, 67, 67, 67, 67, 67, 67, 67, 67, 67, 67, 67, 67,
    67, 67, 67, 67, 67, 67, 67, 67, 67, 65, 65, 65, 65, 65, 65, 65, 65, 65, 65, 65, 65, 65, 65, 65,
    65, 65, 65, 65, 65, 65, 65, 65, 65, 65, 65, 65, 65, 65, 65, 65, 65, 2, 68, 68, 68, 68, 68, 68,
    68, 68, 68, 68, 68, 68, 68, 68, 68, 68, 68, 68, 68, 68, 68, 68, 68, 68, 68, 68, 68, 68, 68, 68,
    68, 68, 66, 66, 66, 66, 66, 66, 66, 66, 66, 66, 66, 66, 66, 66, 66, 66, 66, 66, 66, 66, 66, 66,
    66, 66, 66, 66, 66, 66, 66, 66, 66, 66, 3, 0, 1, 82, 82, 82, 82, 82, 82, 82, 82, 82, 82, 82,
    82, 82, 82, 82, 82, 82, 82, 82, 82, 82, 82, 82, 82, 82, 82, 82, 82, 82, 82, 82, 82, 65, 65, 65,
    65, 65, 65, 65, 65, 65, 65, 65, 65, 65, 65, 65, 65, 65, 65, 65, 65, 65, 65, 65, 65, 65, 65, 65,
    65, 65, 65, 65, 65, 0, 0, 0, 0, 0, 0, 0, 1, 3, 0, 2, 82, 82, 82, 82, 82, 82, 82, 82, 82, 82,
    82, 82, 82, 82, 82, 82, 82, 82, 82, 82, 82, 82, 82, 82, 82, 82, 82, 82, 82, 82, 82, 82, 65, 65,
    65, 65, 65, 65, 65, 65, 65, 65, 65, 65, 65, 65, 65, 65, 65, 65, 65, 65, 65, 65, 65, 65, 65, 65,
    65, 65, 65, 65, 65, 65, 0, 0, 0, 0, 0, 0, 0, 1, 3, 0, 1, 65, 65, 65, 65, 65, 65, 65, 65, 65,
    65, 65, 65, 65, 65, 65, 65, 65, 65, 65, 65, 65, 65, 65, 65, 65, 65, 65, 65, 65, 65, 65, 65, 67,
    67, 67, 67, 67, 67, 67, 67, 67, 67, 67, 67, 67, 67, 67, 67, 67, 67, 67, 67, 67, 67, 67, 67, 67,
    67, 67, 67, 67, 67, 67, 67, 0, 0, 0, 1, 0, 0, 0, 2, 3, 0, 2, 65, 65, 65, 65, 65, 65, 65, 65,
    65, 65, 65, 65, 65, 65, 65, 65, 65, 65, 65, 65, 65, 65, 65, 65, 65, 65, 65, 65, 65, 65, 65, 65,
    67, 67, 67, 67, 67, 67, 67, 67, 67, 67, 67, 67, 67, 67, 67, 67, 67, 67, 67, 67, 67, 67, 67, 67,
    67, 67, 67, 67, 67, 67, 67, 67, 0, 0, 0, 1, 0, 0, 0, 2, 3, 0, 2, 82, 82, 82, 82, 82, 82, 82,
    82, 82, 82, 82, 82, 82, 82, 82, 82, 82, 82, 82, 82, 82, 82, 82, 82, 82, 82, 82, 82, 82, 82, 82,
    82, 66, 66, 66, 66, 66, 66, 66, 66, 66, 66, 66, 66, 66, 66, 66, 66, 66, 66, 66, 66, 66, 66, 66,
    66, 66, 66, 66, 66, 66, 66, 66, 66, 0, 0, 0, 0, 0, 0, 0, 1, 3, 0, 3, 82, 82, 82, 82, 82, 82,
    82, 82, 82, 82, 82, 82, 82, 82, 82, 82, 82, 82, 82, 82, 82, 82, 82, 82, 82, 82, 82, 82, 82, 82,
    82, 82, 66, 66, 66, 66, 66, 66, 66, 66, 66, 66, 66, 66, 66, 66, 66, 66, 66, 66, 66, 66, 66, 66,
    66, 66, 66, 66, 66, 66, 66, 66, 66, 66, 0, 0, 0, 0, 0, 0, 0, 1, 3, 0, 2, 66, 66, 66, 66, 66,
    66, 66, 66, 66, 66, 66, 66, 66, 66, 66, 66, 66, 66, 66, 66, 66, 66, 66, 66, 66, 66, 66, 66, 66,
    66, 66, 66, 68, 68, 68, 68, 68, 68, 68, 68, 68, 68, 68, 68, 68, 68, 68, 68, 68, 68, 68, 68, 68,
    68, 68, 68, 68, 68, 68, 68, 68, 68, 68, 68, 0, 0, 0, 1, 0, 0, 0, 2, 3, 0, 3, 66, 66, 66, 66,
    66, 66, 66, 66, 66, 66, 66, 66, 66, 66, 66, 66, 66, 66, 66, 66, 66, 66, 66, 66, 66, 66, 66, 66,
    66, 66, 66, 66, 68, 68, 68, 68, 68, 68, 68, 68, 68, 68, 68, 68, 68, 68, 68, 68, 68, 68, 68, 68,
    68, 68, 68, 68, 68, 68, 68, 68, 68, 68, 68, 68, 0, 0, 0, 1, 0, 0, 0, 2, 3, 0, 3, 66, 66, 66,
    66, 66, 66, 66, 66, 66, 66, 66, 66, 66, 66, 66, 66, 66, 66, 66, 66, 66, 66, 66, 66, 66, 66, 66,
    66, 66, 66, 66, 66, 68, 68, 68, 68, 68, 68, 68, 68, 68, 68, 68, 68, 68, 68, 68, 68, 68, 68, 68,
    68, 68, 68, 68, 68, 68, 68, 68, 68, 68, 68, 68, 68, 0, 0, 0, 1, 0, 0, 0, 2,
];

// Prints each piece with a write of its own. A piece that cannot be written is left out, and the rest is still tried.
macro_rules! say {
    ($rt:expr; $($piece:expr),+) => {{
        $(let _ = $rt.print($piece);)+
    }};
}

fn print_refused(rt: HostRuntime, r: Refusal) {
    say!(rt; "refused ", u8::from(r), "\n");
}

fn print_outcome(rt: HostRuntime, outcome: Outcome) {
    match outcome {
        Ok(Passed::Nothing) => say!(rt; "nothing left\n"),
        Ok(Passed::Taken) => say!(rt; "taken\n"),
        Ok(Passed::Bundled(n)) => say!(rt; "bundle of ", n, "\n"),
        Err(r) => print_refused(rt, r),
    }
}

fn print_reading(rt: HostRuntime, k: u64, outcome: Outcome) {
    say!(rt; "record ", k, " ");
    print_outcome(rt, outcome);
}

// Every record of the log after its header, at most 64; the witness that they leave.
fn read_all(rt: HostRuntime, begun: Witness, log: &[u8]) -> Witness {
    let mut w = begun;
    let mut at = 37;
    for k in 0..64 {
        let r = witness::read(w, log, at);
        w = r.witness;
        at = r.next;
        print_reading(rt, k, r.outcome);
        if r.outcome == Ok(Passed::Nothing) {
            break;
        }
    }
    w
}

fn print_status(rt: HostRuntime, answer: Result<Status, Refusal>) {
    match answer {
        Ok(Status::Plain) => say!(rt; "plain\n"),
        Ok(Status::Justified) => say!(rt; "justified\n"),
        Ok(Status::Final) => say!(rt; "final\n"),
        Err(r) => print_refused(rt, r),
    }
}

fn print_support(rt: HostRuntime, w: Witness, s: u16, t: u16) {
    match answers::support(w, Place(s), Place(t)) {
        Ok(b) => {
            let quorum = if b.quorum { " yes\n" } else { " no\n" };
            say!(rt; b.number, " members, bonds ", b.bonds, quorum);
        }
        Err(r) => print_refused(rt, r),
    }
}

fn print_conflict(rt: HostRuntime, answer: Result<bool, Refusal>) {
    match answer {
        Ok(true) => say!(rt; "conflict yes\n"),
        Ok(false) => say!(rt; "conflict no\n"),
        Err(r) => print_refused(rt, r),
    }
}

fn print_bytes(rt: HostRuntime, bytes: &[u8]) {
    for b in bytes {
        say!(rt; " ", *b);
    }
}

fn print_sum(rt: HostRuntime, answer: Result<u64, Refusal>) {
    match answer {
        Ok(n) => say!(rt; "sum ", n, "\n"),
        Err(r) => print_refused(rt, r),
    }
}

// The answer of a call that writes our list, and the whole buffer.
fn print_written(rt: HostRuntime, answer: Result<usize, Refusal>, buf: &[u8]) {
    match answer {
        Ok(n) => say!(rt; n),
        Err(r) => print_refused(rt, r),
    }
    print_bytes(rt, buf);
    say!(rt; "\n");
}

// Our list in a buffer of 16 bytes, whole, and what the checker says of its first 13.
fn print_list(rt: HostRuntime, w: Witness) {
    let mut buf = [255; 16];
    let answer = answers::write_list(w, &mut buf);
    print_written(rt, answer, &buf);
    print_sum(rt, answers::check_list(w, &buf[..13]));
}

// A batch of at most ten records: how many were passed, the first ten entries, and why there were no more.
fn print_batch(rt: HostRuntime, w: Witness, log: &[u8], at: usize) -> Batch {
    let mut rows = [255; 256];
    let batch = witness::read_many(w, log, at, 10, &mut rows);
    say!(rt; batch.records, " records:");
    print_bytes(rt, &rows[..10]);
    say!(rt; "; ");
    match batch.end {
        None => say!(rt; "no more were asked for\n"),
        Some(outcome) => print_outcome(rt, outcome),
    }
    batch
}

// The log in batches; then its first 50 bytes, of which the last two are a cut record.
fn print_batches(rt: HostRuntime, w: Witness) {
    let first = print_batch(rt, w, &LOG, 37);
    let second = print_batch(rt, first.witness, &LOG, first.next);
    print_conflict(rt, answers::conflict(second.witness));
    print_batch(rt, w, &LOG[..50], 37);
}

// What the log answers after so many of its records: on place 4, on our list, and on the list of document 01.
fn print_asked(rt: HostRuntime, log: &[u8], limit: u64) {
    let list = [70, 70, 80, 0, 1, 0, 1, 0, 2, 0, 1, 0, 4];
    let mut buf = [255; 16];
    let answers = ask::ask(blank::blank(), log, limit, Place(4), &list, &mut buf);
    print_reading(rt, answers.records, answers.last);
    print_status(rt, answers.status);
    print_conflict(rt, answers.conflict);
    print_written(rt, answers.ours, &buf);
    print_sum(rt, answers.theirs);
}

// The standings of the places, and the support of five links.
fn print_standings(rt: HostRuntime, w: Witness) {
    for p in 0..6 {
        print_status(rt, answers::status(w, Place(p)));
    }
    for (s, t) in [(0, 1), (1, 3), (0, 2), (2, 4), (1, 2)] {
        print_support(rt, w, s, t);
    }
}

fn main(rt: HostRuntime) {
    let begun = witness::begin(blank::blank(), &LOG).witness;
    let w = read_all(rt, begun, &LOG);
    print_standings(rt, w);
    print_conflict(rt, answers::conflict(w));
    print_list(rt, w);
    let read = replay::replay(blank::blank(), &LOG, 64).read;
    print_reading(rt, read.records, read.last);
    print_conflict(rt, answers::conflict(read.witness));
    print_list(rt, read.witness);
    print_batches(rt, begun);
    print_asked(rt, &LOG, 64);
    print_asked(rt, &LOG, 12);
    print_asked(rt, &LOG[..36], 64);
}
