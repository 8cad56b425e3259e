// The public calls for a caller in Rust or C. Each asks nothing of its caller: the state handed in is checked by row
// 40.
#![tactic(auto)]

ghost use Rattle.std.specs.Prelude.{◌≡◌, ◌+◌, length, drop};
ghost use Rattle.model.specs.Evidence.{our_list};
ghost use Rattle.model.specs.Log.{header};
ghost use Rattle.model.specs.Paper.{paper};
ghost use Rattle.model.specs.Run.{reading, moving};
ghost use Rattle.state.specs.Reading.{begin_with};
ghost use Rattle.state.specs.Sound.{sound?};
ghost use Rattle.witness.specs.Calls.{event_call};
ghost use Rattle.witness.specs.Readings.{passed};
ghost use Rattle.answers.specs.Calls.{check_call, status_call, support_call, conflict_call, write_call, write_buffer};
ghost use Rattle.guarantee.specs.LogRead.{replayed};
ghost use Rattle.feeding.specs.Feed.{open_call, feed_call, end_call};
ghost use Rattle.codes.specs.Numbers.{status_number, yes_number, IsAnswered, IsBacked, IsBegun, IsRead, IsReplayed};
ghost use Rattle.codes.specs.Numbers.{IsMovedRoot, IsPiece};

use codes::{Answered, Backed, Begun, Moved, Piece, Read, Replay, Tells};
use model::Place;
use replay::Replayed;
use state::{Beginning, Reading, Witness};

// Reading a header: rows 1 to 3. Any state is taken; a refusal leaves it as it was.
#[unsafe(no_mangle)]
pub extern "C" fn ffw_begin(w: Witness, log: &[u8]) -> Begun
    ensures { IsBegun (header log.now) (begin_with w (header log.now)) result }
{
    let Beginning {
        outcome: header,
        witness,
    } = witness::begin(w, log);
    Begun {
        refused: codes::refused_by(header),
        witness,
    }
}

// A log from its header to its end or its stop, or its first `limit` records, into the empty witness of its header; a
// refused header leaves the state handed in.
#[unsafe(no_mangle)]
pub extern "C" fn ffw_replay(w: Witness, log: &[u8], limit: u64) -> Replay
    ensures { IsReplayed (header log.now) (replayed w log.now limit (header log.now)) result }
{
    let Replayed { start, read } = replay::replay(w, log, limit);
    let replay::Read {
        last,
        rows,
        records,
        witness,
    } = read;
    let Tells {
        refused,
        taken,
        votes,
    } = Tells::from(last);
    Replay {
        header: codes::refused_by(start),
        refused,
        taken,
        votes,
        rows,
        records,
        witness,
    }
}

// Reading the record at an offset of a log: rows 40, 4, 5 and those of its kind; nothing left at or past the end.
#[unsafe(no_mangle)]
pub extern "C" fn ffw_read(w: Witness, log: &[u8], at: usize) -> Read
    ensures { let s = drop at log.now in IsRead w (event_call w (reading s)) (at + passed w s) result }
{
    let Reading {
        outcome,
        rows,
        next,
        witness,
    } = witness::read(w, log, at);
    let Tells {
        refused,
        taken,
        votes,
    } = Tells::from(outcome);
    Read {
        refused,
        taken,
        votes,
        rows,
        next,
        witness,
    }
}

// Moving the root up to a place: rows 40, 41, 70, 71 and 72, which leave the state as it was. Else that place is the
// root, with its height kept, and what is not at it or below it in the tree is dropped.
#[unsafe(no_mangle)]
pub extern "C" fn ffw_move_root(w: Witness, place: Place) -> Moved
    ensures { IsMovedRoot w (event_call w (moving place.0)) result }
{
    let mover::Moved { outcome, witness } = witness::move_root(w, place);
    Moved {
        refused: codes::refused_by(outcome),
        witness,
    }
}

// Whether a state passes row 40.
#[unsafe(no_mangle)]
pub extern "C" fn ffw_sound(w: Witness) -> bool
    ensures { result ≡ sound? w }
{
    sound::is_sound(w)
}

// The standing of a checkpoint: 0 plain, 1 justified, 2 final; rows 40 and 41.
#[unsafe(no_mangle)]
pub extern "C" fn ffw_status(w: Witness, place: Place) -> Answered
    ensures { IsAnswered status_number (status_call w place.0) result }
{
    Answered::from(answers::status(w, place).map(codes::status_number))
}

// The backing of a link between two held places; rows 40 and 41.
#[unsafe(no_mangle)]
#[tactic(auto, using(codes::proofs::Told::byte_of), unfolding(model::specs::Answer::row_of))]
pub extern "C" fn ffw_support(w: Witness, source: Place, target: Place) -> Backed
    ensures { IsBacked (support_call w source.0 target.0) result }
{
    match answers::support(w, source, target) {
        Ok(b) => Backed {
            refused: 0,
            number: u64::from(b.number),
            bonds: b.bonds,
            quorum: u64::from(b.quorum),
        },
        Err(r) => Backed {
            refused: codes::number(r),
            number: 0,
            bonds: 0,
            quorum: 0,
        },
    }
}

// Whether any two final checkpoints conflict: 1 for yes; row 40.
#[unsafe(no_mangle)]
pub extern "C" fn ffw_conflict(w: Witness) -> Answered
    ensures { IsAnswered yes_number (conflict_call w) result }
{
    Answered::from(answers::conflict(w).map(u64::from))
}

// Our list of charges into a lent buffer: its length; rows 40 and 60, which leave the buffer unwritten.
#[unsafe(no_mangle)]
pub extern "C" fn ffw_list(w: Witness, buf: &mut [u8]) -> Answered
    ensures { IsAnswered (λ n. n) (write_call our_list w buf.old) result
        × (buf.new ≡ write_buffer our_list w buf.old) }
{
    Answered::from(answers::write_list(w, buf))
}

// The board paper into a lent buffer: its length; rows 40 and 60, which leave the buffer unwritten.
#[unsafe(no_mangle)]
pub extern "C" fn ffw_paper(w: Witness, buf: &mut [u8]) -> Answered
    ensures { IsAnswered (λ n. n) (write_call paper w buf.old) result
        × (buf.new ≡ write_buffer paper w buf.old) }
{
    Answered::from(answers::write_paper(w, buf))
}

// Checking a list of charges: the sum of the named bonds; rows 40 and 50 to 57.
#[unsafe(no_mangle)]
pub extern "C" fn ffw_check(w: Witness, list: &[u8]) -> Answered
    ensures { IsAnswered (λ n. n) (check_call w list.now) result }
{
    Answered::from(answers::check_list(w, list))
}

// The report of a log, fed in pieces: its first bytes, the header among them; `last` says that the log has no more. Any
// state is taken.
#[unsafe(no_mangle)]
pub extern "C" fn ffw_open(w: Witness, log: &[u8], last: bool, buf: &mut [u8]) -> Piece
    ensures { IsPiece (open_call last (length buf.old) w log.now) 0 buf.old result
        buf.new }
{
    Piece::from(report::open(w, log, last, buf))
}

// The records of a piece from `at` on, while 8,192 bytes of the buffer are free; row 40.
#[unsafe(no_mangle)]
pub extern "C" fn ffw_feed(w: Witness, records: u64, log: &[u8], at: usize, buf: &mut [u8]) -> Piece
    ensures { IsPiece (feed_call (length buf.old) w records (drop at log.now)) at buf.old result
        buf.new }
{
    Piece::from(report::feed(w, records, log, at, buf))
}

// The end of the log, where `left` of its bytes were not passed.
#[unsafe(no_mangle)]
pub extern "C" fn ffw_close(w: Witness, records: u64, left: usize, buf: &mut [u8]) -> Piece
    ensures { IsPiece (end_call (length buf.old) w records left) 0 buf.old result buf.new }
{
    Piece::from(report::close(w, records, left, buf))
}
