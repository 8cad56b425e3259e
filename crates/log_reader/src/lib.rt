// The log reader that document 01 names: the lent log and the offset reached, as one record, and few thin functions
// over it. The work is `reader::read_many`'s, which takes a plain log and an offset. `read_from` has plain parameters,
// so that whoever calls it names no reader.
#![tactic(auto)]

ghost use Rattle.std.specs.Prelude.{◌≡◌, ◌+◌, length, drop};
ghost use Rattle.model.specs.Decide.{decide};
ghost use Rattle.model.specs.Log.{record_length};
ghost use Rattle.state.specs.State.{model_of};
ghost use Rattle.state.specs.Sound.{Sound};
ghost use Rattle.state.specs.Reading.{IsReading};
ghost use Rattle.reader.specs.Many.{read_many, IsBatch};

use model::MAX_MEMBERS;
use reader::Batch;
use state::{Reading, Witness};

// The lent log, and the offset reached in it.
#[derive(Clone, Copy)]
pub struct LogReader<'a> {
    pub log: &'a [u8],
    pub at: usize,
}

// A reader of a lent log from an offset on.
pub fn new<'a>(log: &'a [u8], at: usize) -> LogReader<'a>
    ensures { (result.log ≡ log.entry) × (result.at ≡ at) }
{
    LogReader { log, at }
}

// The records from the reader's offset on, into a sound witness, at most `limit`, while there is room for their
// entries. The reader is lent too, and is moved on to the offset reached: the next call with it starts where this one
// ended.
pub fn read_on<'s, 'a>(r: &'s mut LogReader<'a>, w: Witness, limit: u64, rows: &mut [u8]) -> Batch
    requires { Sound w }
    ensures { IsBatch
        (read_many limit (length rows.old) w r.old.log.now r.old.at)
        rows.old
        result
        rows.new
        × (r.new.log ≡ r.old.log)
        × (r.new.at ≡ result.next) }
{
    let at = r.at;
    let batch = reader::read_many(w, r.log, at, limit, rows);
    r.at = batch.next;
    batch
}

// The same from an offset of a log: a reader is made there, and read on with. It is not handed back, since the batch
// has the offset reached.
pub fn read_from(w: Witness, log: &[u8], at: usize, limit: u64, rows: &mut [u8]) -> Batch
    requires { Sound w }
    ensures { IsBatch
        (read_many limit (length rows.old) w log.now at)
        rows.old
        result
        rows.new }
{
    let mut r = new(log, at);
    read_on(&mut r, w, limit, rows)
}

// The record at `from`, into a sound witness: reading on where one record may be passed. Where none was, the outcome is
// what ended the reading.
pub fn read_record(w: Witness, log: &[u8], from: usize) -> Reading
    requires { Sound w }
    ensures { IsReading w
        (decide (model_of w) (drop from log.now))
        (from + record_length (drop from log.now))
        result }
{
    let mut rows = [0u8; MAX_MEMBERS];
    let r = read_from(w, log, from, 1, &mut rows);
    Reading {
        outcome: r.end.unwrap_or(r.last),
        rows: entries::last_votes(&rows, r.used, r.last),
        next: r.next,
        witness: r.witness,
    }
}
