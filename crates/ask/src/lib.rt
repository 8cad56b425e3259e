// A log read from its header on, and then asked: its book answers.
#![tactic(auto)]

ghost use Rattle.std.specs.Prelude.{◌≡◌};
ghost use Rattle.model.specs.Log.{header};
ghost use Rattle.ask.specs.Book.{IsAnswers, book_buffer};

use model::{MAX_MEMBERS, Place, Refusal, Status};
use replay::{Read, Replayed};
use state::{Outcome, Witness};

// What can be asked of a log: what the last record read came to (of a bundle that is not refused whole, with the row
// that refused each of its votes, or 0) and how many were read, the standing of a place, the conflict, our list, and a
// list that someone handed in.
#[derive(Clone, Copy)]
pub struct Answers {
    pub last: Outcome,
    pub rows: [u8; MAX_MEMBERS],
    pub records: u64,
    pub status: Result<Status, Refusal>,
    pub conflict: Result<bool, Refusal>,
    pub ours: Result<usize, Refusal>,
    pub theirs: Result<u64, Refusal>,
}

// A log read from its header to its end or its stop, or to its first `limit` records, then asked; our list goes into
// `buf`. The witness handed in plays no part.
pub fn ask(w: Witness, log: &[u8], limit: u64, p: Place, theirs: &[u8], buf: &mut [u8]) -> Answers
    ensures { IsAnswers log.now limit p.0 theirs.now buf.old result
        × (buf.new ≡ book_buffer (header log.now) limit log.now buf.old) }
{
    let Replayed { start, read } = replay::replay(w, log, limit);
    let Read {
        last,
        rows,
        records,
        witness: held,
    } = read;
    match start {
        Ok(()) => Answers {
            last,
            rows,
            records,
            status: answers::status(held, p),
            conflict: answers::conflict(held),
            ours: answers::write_list(held, buf),
            theirs: answers::check_list(held, theirs),
        },
        Err(refusal) => Answers {
            last: Err(refusal),
            rows: [0u8; MAX_MEMBERS],
            records: 0,
            status: Err(refusal),
            conflict: Err(refusal),
            ours: Err(refusal),
            theirs: Err(refusal),
        },
    }
}
