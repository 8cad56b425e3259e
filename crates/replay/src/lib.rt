// What ties the theorem of crate guarantee to code: a log read from its header on, so many of its records as are asked
// for, to its end or its stop.
#![tactic(auto)]

ghost use Rattle.std.specs.Prelude.{◌≡◌, drop};
ghost use Rattle.model.specs.Answer.{answer};
ghost use Rattle.model.specs.Change.{nothing_left};
ghost use Rattle.model.specs.Run.{readings};
ghost use Rattle.state.specs.Sound.{Sound};
ghost use Rattle.guarantee.specs.LogRead.{read_on};
ghost use Rattle.replay.specs.IsReplay.{shown, read_of, IsReplay};

use model::{MAX_MEMBERS, Refusal};
use state::{Beginning, Outcome, Passed, Witness};

// What reading came to: what the last record read came to (`Nothing` where none was read); where that is a bundle
// that is not refused whole, the row that refused each of its votes, or 0; how many records were read; and the witness.
#[derive(Clone, Copy)]
pub struct Read {
    pub last: Outcome,
    pub rows: [u8; MAX_MEMBERS],
    pub records: u64,
    pub witness: Witness,
}

// The records from an offset on, at most `limit` of them, to the log's end or to the first that is unknown or cut,
// which reading does not pass. They are read in batches; one that was ended by a record, short of the log's end,
// stopped at such a record.
fn read_rest(w: Witness, log: &[u8], from: usize, limit: u64) -> Read
    requires { Sound w }
    ensures { read_of result ≡ shown (read_on (answer nothing_left) 0 w (readings limit (drop from log.now))) }
{
    let mut held = w;
    let mut at = from;
    let mut last = Ok(Passed::Nothing);
    let mut votes = [0u8; MAX_MEMBERS];
    let mut records: u64 = 0;
    let mut rows = [0u8; 1024];
    while at < log.len() && records < limit {
        let r = log_reader::read_from(held, log, at, limit - records, &mut rows);
        held = r.witness;
        at = r.next;
        last = r.last;
        votes = entries::last_votes(&rows, r.used, last);
        records += r.records;
        if let Some(outcome) = r.end {
            if at < log.len() {
                return Read {
                    last: outcome,
                    rows: [0u8; MAX_MEMBERS],
                    records: records + 1,
                    witness: held,
                };
            }
        }
    }
    Read {
        last,
        rows: votes,
        records,
        witness: held,
    }
}

// What the header came to, and the records after it; where the header is refused, none is read and the witness is the
// one handed in.
#[derive(Clone, Copy)]
pub struct Replayed {
    pub start: Result<(), Refusal>,
    pub read: Read,
}

// A log from its header to its end or its stop, or to its first `limit` records: rows 1 to 3, then every record in
// turn.
pub fn replay(w: Witness, log: &[u8], limit: u64) -> Replayed
    ensures { IsReplay w log.now limit result }
{
    let Beginning {
        outcome: start,
        witness,
    } = state::begin(w, log);
    let read = match start {
        Ok(()) => read_rest(witness, log, 37, limit),
        Err(_) => Read {
            last: Ok(Passed::Nothing),
            rows: [0u8; MAX_MEMBERS],
            records: 0,
            witness,
        },
    };
    Replayed { start, read }
}
