// The public calls of the witness that read a log, and that move its root up. None asks anything of its caller: what is
// handed in is checked. Those that ask what the witness holds are in crate `answers`.
#![tactic(auto)]

ghost use Rattle.std.specs.Prelude.{◌+◌, length, drop};
ghost use Rattle.model.specs.Bytes.{part};
ghost use Rattle.model.specs.Log.{header};
ghost use Rattle.model.specs.Run.{reading, moving};
ghost use Rattle.state.specs.Reading.{IsReading, IsBeginning};
ghost use Rattle.reader.specs.Many.{IsBatch};
ghost use Rattle.mover.specs.Moved.{IsMoved};
ghost use Rattle.witness.specs.Calls.{event_call};
ghost use Rattle.witness.specs.Readings.{passed, many_call};

use model::{MAX_MEMBERS, Place, Refusal};
use mover::Moved;
use reader::Batch;
use state::{Beginning, Passed, Reading, Witness};

// Reading a header: rows 1 to 3, which leave the state handed in; or the empty witness with that root. Any state is
// taken.
pub fn begin(w: Witness, log: &[u8]) -> Beginning
    ensures { IsBeginning w (part 5 32 log.now) (header log.now) result }
{
    state::begin(w, log)
}

// Reading the record at an offset of a log: row 40, then 4, 5 and those of its kind; nothing left at or past the end. A
// refusal leaves the state as it was. Of a bundle that is not refused whole, what each of its votes came to is told.
pub fn read(w: Witness, log: &[u8], at: usize) -> Reading
    ensures { let s = drop at log.now in IsReading w (event_call w (reading s)) (at + passed w s) result }
{
    if !sound::is_sound(w) {
        return Reading {
            outcome: Err(Refusal::UnsoundState),
            rows: [0u8; MAX_MEMBERS],
            next: at,
            witness: w,
        };
    }
    log_reader::read_record(w, log, at)
}

// Reading the records from an offset on, to the log's end or its stop, at most `limit`, while 128 of the bytes lent in
// `rows` are free: row 40, once, then each record in turn. A record's byte gets the number of the row of the table that
// refused it, or 0; a bundle that is not refused whole has such a byte for each of its votes, with 128 added to all but
// the first. A record that cannot be passed, and row 40, are told in `end`; so are a limit and room that are spent.
pub fn read_many(w: Witness, log: &[u8], at: usize, limit: u64, rows: &mut [u8]) -> Batch
    ensures { IsBatch (many_call limit (length rows.old) w log.now at) rows.old result
        rows.new }
{
    if !sound::is_sound(w) {
        return Batch {
            end: Some(Err(Refusal::UnsoundState)),
            last: Ok(Passed::Nothing),
            next: at,
            records: 0,
            used: 0,
            witness: w,
        };
    }
    log_reader::read_from(w, log, at, limit, rows)
}

// Moving the root up to a held place: row 40, then 41, 70, 71 and 72, which leave the state as it was. Else that place
// is the root, with its height kept; it, its descendants and the votes among these stand in front of the arrays, in
// order, and what stands past the counts is as it was.
pub fn move_root(w: Witness, place: Place) -> Moved
    ensures { IsMoved w (event_call w (moving place.0)) result }
{
    if !sound::is_sound(w) {
        return mover::refuse(w, Refusal::UnsoundState);
    }
    mover::move_root(w, place)
}
