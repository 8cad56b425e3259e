// The witness's state, and what a header begins.
#![tactic(auto)]

ghost use Rattle.std.specs.Prelude.{◌≡◌, ◌+◌, ◌*◌, ◌≤◌, length, take, drop, IfOk};
ghost use Rattle.std.proofs.Math.Seq.{paste};
ghost use Rattle.model.specs.Bytes.{part, ascii};
ghost use Rattle.model.specs.Limits.{checkpoint_limit};
ghost use Rattle.model.specs.Lists.{same_bytes};
ghost use Rattle.model.specs.Log.{header};
ghost use Rattle.state.specs.State.{empty_witness};
ghost use Rattle.state.specs.Reading.{IsBeginning, start_of};

use model::{Height, MAX_CHECKPOINTS, MAX_MEMBERS, MAX_VOTES, NAME_BYTES, Place, Refusal};

pub mod quotas;

// The numbers beside the arrays, in one struct that further numbers can join: p and q of the quorum that a record gave,
// both 0 where none was given.
#[repr(C)]
#[derive(Clone, Copy)]
pub struct Numbers {
    pub p: u16,
    pub q: u16,
}

// What is held, in arrays: of each, the first so many entries as its count says; what stands past them means nothing.
// A name is 32 bytes of `names`, at 32 times its place. Beside the arrays stand the numbers.
#[repr(C)]
#[derive(Clone, Copy)]
pub struct Witness {
    pub ids: [u16; MAX_MEMBERS],
    pub bonds: [u64; MAX_MEMBERS],
    pub names: [u8; NAME_BYTES],
    pub parents: [Place; MAX_CHECKPOINTS],
    pub heights: [Height; MAX_CHECKPOINTS],
    pub voters: [u16; MAX_VOTES],
    pub sources: [Place; MAX_VOTES],
    pub targets: [Place; MAX_VOTES],
    pub member_count: usize,
    pub checkpoint_count: usize,
    pub vote_count: usize,
    pub numbers: Numbers,
}

// What reading came to where nothing is refused: nothing was left; a record that is no bundle was taken; of a bundle,
// how many bits were set. What each of these votes came to stands beside it.
#[derive(Clone, Copy, Debug, PartialEq, Eq)]
pub enum Passed {
    Nothing,
    Taken,
    Bundled(usize),
}

// What reading a record comes to.
pub type Outcome = Result<Passed, Refusal>;

// The outcome; for each vote of a bundle, in rising member place, the number of the row that refused it or 0 (0 past
// them, and where the record is no bundle or is refused whole); the offset to go on from; and the witness as it is
// then.
#[derive(Clone, Copy)]
pub struct Reading {
    pub outcome: Outcome,
    pub rows: [u8; MAX_MEMBERS],
    pub next: usize,
    pub witness: Witness,
}

// The 32 bytes of the log at `from`, into the table at `at`.
pub fn copy_name(names: &mut [u8; NAME_BYTES], at: usize, log: &[u8], from: usize)
    requires { (length names.old ≡ 32 * checkpoint_limit)
        × (at + 32 ≤ 32 * checkpoint_limit)
        × (from + 32 ≤ length log.now) }
    ensures { names.new ≡ paste names.old at (drop from log.now) 32 }
{
    names[at..at + 32].copy_from_slice(&log[from..from + 32]);
}

// The witness with the root alone, whose name is the 32 bytes of the log at 5.
fn empty(log: &[u8]) -> Witness
    requires { 37 ≤ length log.now }
    ensures { result ≡ empty_witness (part 5 32 log.now) }
{
    let mut names = [0u8; NAME_BYTES];
    copy_name(&mut names, 0, log, 5);
    Witness {
        ids: [0u16; MAX_MEMBERS],
        bonds: [0u64; MAX_MEMBERS],
        names,
        parents: [Place(0); MAX_CHECKPOINTS],
        heights: [Height(0); MAX_CHECKPOINTS],
        voters: [0u16; MAX_VOTES],
        sources: [Place(0); MAX_VOTES],
        targets: [Place(0); MAX_VOTES],
        member_count: 0,
        checkpoint_count: 1,
        vote_count: 0,
        numbers: Numbers { p: 0, q: 0 },
    }
}

// What reading a header comes to, and the witness: the empty one, or the one handed in.
#[derive(Clone, Copy)]
pub struct Beginning {
    pub outcome: Result<(), Refusal>,
    pub witness: Witness,
}

// The mark `FFW`.
fn has_mark(log: &[u8]) -> bool
    ensures { result ≡ same_bytes (take 3 log.now) (ascii "FFW") }
{
    log.starts_with(b"FFW")
}

// Rows 1 to 3.
fn check_header(log: &[u8]) -> Result<(), Refusal>
    ensures outcome { start_of (part 5 32 log.now) result ≡ header log.now }
    ensures long { IfOk result (λ u. 37 ≤ length log.now) }
{
    if log.len() < 37 {
        return Err(Refusal::LogTooShort);
    }
    if !has_mark(log) {
        return Err(Refusal::LogMark);
    }
    if wire::be16(log, 3) != 1 {
        return Err(Refusal::LogVersion);
    }
    Ok(())
}

// What a header begins; any witness may be handed in.
pub fn begin(w: Witness, log: &[u8]) -> Beginning
    ensures { IsBeginning w (part 5 32 log.now) (header log.now) result }
{
    let outcome = check_header(log);
    let witness = match outcome {
        Ok(()) => empty(log),
        Err(_) => w,
    };
    Beginning { outcome, witness }
}
