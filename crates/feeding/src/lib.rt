// How a call of the report goes on: what it comes to, and the records of a piece read on, the lines of those that are
// refused into a lent buffer.
#![tactic(auto)]

ghost use Rattle.std.specs.Prelude.{ℕ, ◌≡◌, ◌+◌, ◌*◌, ◌<◌, ◌≤◌, List, [], length, drop};
ghost use Rattle.state.specs.Reading.{outcome_of};
ghost use Rattle.state.specs.Sound.{Sound};
ghost use Rattle.text.specs.Put.{Put};
ghost use Rattle.feeding.specs.Feed.{record_room, last_number, spent, pause_of, paused_of, paused_at};
ghost use Rattle.feeding.specs.Feed.{halted, feed_from, IsFed};
ghost use Rattle.feeding.specs.Rows.{entry_lines, beginning};

use model::Refusal;
use state::{Outcome, Witness};

// No record has this number, since the one after it would have none.
const LAST_NUMBER: u64 = u64::MAX;

// The lines of one record have fewer bytes: a bundle has at most 128 votes, and a line fewer than 64 bytes.
const RECORD_ROOM: usize = 8192;

// Why a call paused: it wants the next piece; the buffer has no room for the lines of a record, or for the last text;
// no record number is left; or the report has ended.
#[derive(Clone, Copy, Debug, PartialEq, Eq)]
pub enum Pause {
    Wants,
    Full,
    OutOfNumbers,
    Ended,
}

// Why the call paused, or row 40, which refused it; the offset that it reached (0 for `close`, which reads nothing),
// the number of the next record, how many bytes it wrote, and the witness.
#[derive(Clone, Copy)]
pub struct Fed {
    pub pause: Result<Pause, Refusal>,
    pub next: usize,
    pub records: u64,
    pub written: usize,
    pub witness: Witness,
}

impl Fed {
    // A call that wrote nothing.
    pub fn paused(pause: Result<Pause, Refusal>, next: usize, records: u64, witness: Witness) -> Fed
        ensures { (buf : List ℕ) → IsFed (paused_at [] (paused_of pause) witness records) next 0 buf result buf }
    {
        Fed {
            pause,
            next,
            records,
            written: 0,
            witness,
        }
    }
}

// How many entries may be written at once: each needs one of 1024 rows, and room for a line.
fn batch(room: usize) -> usize
    requires { record_room ≤ room }
    ensures { (128 ≤ result) × (result ≤ 1024) × (64 * result ≤ room) }
{
    (room / 64).min(1024)
}

// The lines of record k and those after it, by their entries: each record, or vote of a bundle, that was refused has
// one, with the record's number.
fn refused_lines(buf: &mut [u8], at: usize, k: u64, rows: &[u8]) -> usize
    requires { (at + 64 * length rows.now ≤ length buf.old) × (k + beginning rows.now ≤ last_number) }
    ensures { Put buf.old at (entry_lines k rows.now) buf.new result
        × (result ≤ at + 64 * length rows.now) }
{
    let mut end = at;
    let mut number = k;
    let mut next = k;
    for &entry in rows {
        if entry < 128 {
            number = next;
            next += 1;
        }
        let row = entry % 128;
        if row != 0 {
            end = lines::refused_line(buf, end, number, row);
        }
    }
    end
}

// Record k, at `next`, cannot be passed: an unknown kind ends the report, a cut record waits for the next piece.
fn halt(w: Witness, buf: &mut [u8], at: usize, next: usize, k: u64, o: Outcome) -> Fed
    requires { at + 64 ≤ length buf.old }
    ensures { IsFed (halted (outcome_of o) w k) next at buf.old result buf.new }
{
    let (pause, written) = if o == Err(Refusal::UnknownKind) {
        (
            Pause::Ended,
            lines::stopped_line(buf, at, Refusal::UnknownKind, k),
        )
    } else {
        (Pause::Wants, at)
    };
    Fed {
        pause: Ok(pause),
        next,
        records: k,
        written,
        witness: w,
    }
}

// Why no record can be read on: the buffer has no room for the lines of one, or else no number is left.
fn why_spent(room: usize) -> Pause
    ensures { pause_of result ≡ spent room }
{
    if room < RECORD_ROOM {
        return Pause::Full;
    }
    Pause::OutOfNumbers
}

// Record after record from `at` on, into a sound witness, with the lines of those that are refused. They are read many
// at a time: a call that took the state and gave it back for each record would copy it each time.
pub fn read_on(w: Witness, records: u64, log: &[u8], at: usize, buf: &mut [u8]) -> Fed
    requires { Sound w }
    ensures { IsFed
        (feed_from (length (drop at log.now) + 1) (length buf.old) w records
        (drop at log.now))
        at
        0
        buf.old
        result
        buf.new }
{
    let mut rows = [0u8; 1024];
    let mut held = w;
    let mut k = records;
    let mut next = at;
    let mut end: usize = 0;
    while RECORD_ROOM <= buf.len() - end && k < LAST_NUMBER {
        let most = batch(buf.len() - end);
        let r = log_reader::read_from(held, log, next, LAST_NUMBER - k, &mut rows[..most]);
        held = r.witness;
        next = r.next;
        end = refused_lines(buf, end, k, &rows[..r.used]);
        k += r.records;
        // the next one cannot be passed
        if let Some(outcome) = r.end {
            return halt(held, buf, end, next, k, outcome);
        }
    }
    Fed {
        pause: Ok(why_spent(buf.len() - end)),
        next,
        records: k,
        written: end,
        witness: held,
    }
}
