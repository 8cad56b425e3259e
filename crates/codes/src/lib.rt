// Answers as numbers, for a caller in Rust or C.
#![tactic(auto)]

ghost use Rattle.std.specs.Prelude.{◌≡◌, List, ℕ};
ghost use Rattle.model.specs.Answer.{row_of};
ghost use Rattle.model.specs.Buffer.{write_answer_of};
ghost use Rattle.model.specs.Refusals.{refusal_number, answer_of};
ghost use Rattle.state.specs.Reading.{outcome_of, start_of};
ghost use Rattle.feeding.specs.Feed.{Feeding, IsFed, paused_of};
ghost use Rattle.codes.specs.Numbers.{status_number, pause_number, IsAnswered, IsTold, IsPiece};

use feeding::{Fed, Pause};
use model::{MAX_MEMBERS, Refusal, Status};
use state::{Outcome, Passed, Witness};

// An answer: the number of the refusal and 0, or 0 and the value.
#[repr(C)]
#[derive(Clone, Copy, Debug, PartialEq, Eq)]
pub struct Answered {
    pub refused: u64,
    pub value: u64,
}

// The backing of a link, after the number of the refusal; `quorum` is 1 for yes.
#[repr(C)]
#[derive(Clone, Copy, Debug, PartialEq, Eq)]
pub struct Backed {
    pub refused: u64,
    pub number: u64,
    pub bonds: u64,
    pub quorum: u64,
}

// What reading a header came to, and the witness afterwards.
#[repr(C)]
#[derive(Clone, Copy)]
pub struct Begun {
    pub refused: u64,
    pub witness: Witness,
}

// What the header came to, and the last record read, `taken` being 1 where it was taken and is no bundle; where it is a
// bundle that is not refused whole, how many bits were set, and in the first so many of `rows` the number of the row
// that refused each of these votes, or 0; how many records were read; the witness afterwards.
#[repr(C)]
#[derive(Clone, Copy)]
pub struct Replay {
    pub header: u64,
    pub refused: u64,
    pub taken: u64,
    pub votes: u64,
    pub rows: [u8; MAX_MEMBERS],
    pub records: u64,
    pub witness: Witness,
}

// What reading a record came to, `taken` being 1 where it was taken and is no bundle; of a bundle that is not refused
// whole, how many bits were set, and in the first so many of `rows` the number of the row that refused each of these
// votes, or 0; the offset to go on from; the witness afterwards.
#[repr(C)]
#[derive(Clone, Copy)]
pub struct Read {
    pub refused: u64,
    pub taken: u64,
    pub votes: u64,
    pub rows: [u8; MAX_MEMBERS],
    pub next: usize,
    pub witness: Witness,
}

// What a move of the root came to, 0 where it was made and else the number of the refusal, and the witness afterwards.
#[repr(C)]
#[derive(Clone, Copy)]
pub struct Moved {
    pub refused: u64,
    pub witness: Witness,
}

// Why a call for the report paused: 0 for more of the log, 1 for a buffer with more room, 2 at the report's end, 3
// where no record number is left, and 256 plus the number of the refusal. Then the offset reached, the number of the
// next record, how many bytes were written, and the witness afterwards.
#[repr(C)]
#[derive(Clone, Copy)]
pub struct Piece {
    pub pause: u64,
    pub next: usize,
    pub records: u64,
    pub written: usize,
    pub witness: Witness,
}

// The number of a refusal. A function, and no `From`: that would have to stand in the crate of `Refusal`.
pub fn number(r: Refusal) -> u64
    ensures { result ≡ refusal_number r }
{
    u64::from(u8::from(r))
}

// The number of the refusal, of a header or of a move; 0 where there is none.
#[tactic(auto, unfolding(model::specs::Answer::row_of))]
pub fn refused_by(r: Result<(), Refusal>) -> u64
    ensures { (name : List ℕ) → result ≡ row_of (start_of name r) }
{
    match r {
        Ok(()) => 0,
        Err(r) => number(r),
    }
}

// What a record came to: the number of the refusal, 1 where it was taken and is no bundle, and how many votes a bundle
// has.
#[derive(Clone, Copy, Debug, PartialEq, Eq)]
pub struct Tells {
    pub refused: u64,
    pub taken: u64,
    pub votes: u64,
}

impl From<Outcome> for Tells {
    ghost from_gives = { λ o t. IsTold (outcome_of o) t };

    #[tactic(auto, unfolding(model::specs::Answer::row_of))]
    fn from(o: Outcome) -> Tells {
        let (refused, taken, votes) = match o {
            Ok(Passed::Nothing) => (0, 0, 0),
            Ok(Passed::Taken) => (0, 1, 0),
            Ok(Passed::Bundled(n)) => (0, 0, n as u64),
            Err(r) => (number(r), 0, 0),
        };
        Tells {
            refused,
            taken,
            votes,
        }
    }
}

// What a call answers that gives one number.
impl From<Result<u64, Refusal>> for Answered {
    ghost from_gives = { λ r a. IsAnswered (λ n. n) (answer_of (λ n. n) r) a };

    #[tactic(auto, unfolding(model::specs::Answer::row_of))]
    fn from(r: Result<u64, Refusal>) -> Answered {
        match r {
            Ok(value) => Answered { refused: 0, value },
            Err(r) => Answered {
                refused: number(r),
                value: 0,
            },
        }
    }
}

// What writing a text came to: its value is the text's length.
impl From<Result<usize, Refusal>> for Answered {
    ghost from_gives = { λ r a. IsAnswered (λ n. n) (write_answer_of r) a };

    fn from(r: Result<usize, Refusal>) -> Answered {
        Answered::from(r.map(|n| n as u64))
    }
}

// The number of a standing.
pub fn status_number(s: Status) -> u64
    ensures { result ≡ status_number s }
{
    match s {
        Status::Plain => 0,
        Status::Justified => 1,
        Status::Final => 2,
    }
}

// The number for a pause, or for the refusal of the call.
pub fn pause_number(p: Result<Pause, Refusal>) -> u64
    ensures { result ≡ pause_number (paused_of p) }
{
    match p {
        Ok(Pause::Wants) => 0,
        Ok(Pause::Full) => 1,
        Ok(Pause::Ended) => 2,
        Ok(Pause::OutOfNumbers) => 3,
        Err(r) => 256 + number(r),
    }
}

// What a call for the report came to, in numbers.
impl From<Fed> for Piece {
    ghost from_gives = { λ f p. (g : Feeding) (at : ℕ) (before after : List ℕ)
        → IsFed g at 0 before f after
        → IsPiece g at before p after };

    fn from(f: Fed) -> Piece {
        let Fed {
            pause,
            next,
            records,
            written,
            witness,
        } = f;
        Piece {
            pause: pause_number(pause),
            next,
            records,
            written,
            witness,
        }
    }
}
