// Moving the root up, on a sound state: rows 41 and 70 to 72, or the state with what stays. Row 40 comes before it, in
// crate `witness`.
#![tactic(auto)]

ghost use Rattle.std.specs.Prelude.{◌≡◌, ◌<◌, ◌≤◌, length};
ghost use Rattle.model.specs.Change.{single};
ghost use Rattle.model.specs.Decide.{bars_root, risks_evidence, drops_higher, decide_move};
ghost use Rattle.model.specs.Limits.{vote_limit};
ghost use Rattle.model.specs.Lists.{any_below};
ghost use Rattle.state.specs.Sound.{Sound};
ghost use Rattle.state.specs.State.{model_of};
ghost use Rattle.pruning.specs.Kept.{IsKept};
ghost use Rattle.mover.specs.Moved.{IsMoved, refused_move, VotesKept, ChargesWithin, shows_dropped};

use evidence::{Charge, list_charges};
use model::{MAX_ROOT_HEIGHT, MAX_VOTES, Place, Refusal, Status};
use pruning::{Kept, kept_by, prune};
use state::Witness;

// What a move came to, taken or refused, and the witness as it is then: a refusal leaves the one handed in.
#[derive(Clone, Copy)]
pub struct Moved {
    pub outcome: Result<(), Refusal>,
    pub witness: Witness,
}

// Row 70: r isn't final, or is higher than a root may be.
fn bars_root(w: Witness, r: Place) -> bool
    requires { Sound w × (r.0 < w.checkpoint_count) }
    ensures { result ≡ bars_root (model_of w) r.0 }
{
    let height = w.heights[r.0 as usize];
    if MAX_ROOT_HEIGHT < height.0 {
        return true;
    }
    finality::status(w, r) != Status::Final
}

// By number, whether a vote stays: its source and its target do.
fn votes_kept(w: &Witness, r: Place, k: &Kept) -> [bool; MAX_VOTES]
    requires { Sound w.now × IsKept w.now r.0 k.now }
    ensures { VotesKept w.now r.0 result }
{
    let mut v = [false; MAX_VOTES];
    for i in 0..w.vote_count {
        let source = w.sources[i].0 as usize;
        let target = w.targets[i].0 as usize;
        v[i] = k.stays[source] & k.stays[target];
    }
    v
}

// Whether some charge shows a vote that does not stay, be it the earlier or the later one.
fn drops_evidence<'a>(votes: &'a [bool], charges: &'a [Charge]) -> bool
    requires { ChargesWithin (length votes.now) charges.now }
    ensures { result ≡ any_below (length charges.now) (shows_dropped votes.now charges.now) }
{
    for charge in charges {
        let first = charge.earlier as usize;
        let second = charge.later as usize;
        if !votes[first] | !votes[second] {
            return true;
        }
    }
    false
}

// Row 71: two final checkpoints conflict, or a charge shows a vote that is to be dropped.
fn risks_evidence(w: Witness, r: Place, votes: &[bool]) -> bool
    requires { Sound w × VotesKept w r.0 votes.now × (length votes.now ≡ vote_limit) }
    ensures { result ≡ risks_evidence (model_of w) r.0 }
{
    let conflict = finality::conflict(w);
    let charges = list_charges(&w);
    let dropped = drops_evidence(votes, charges.as_slice());
    conflict | dropped
}

// Row 72: a vote that is to be dropped has a target higher than r.
fn drops_higher<'a>(w: &'a Witness, r: Place, votes: &'a [bool]) -> bool
    requires { Sound w.now
        × (r.0 < w.now.checkpoint_count)
        × VotesKept w.now r.0 votes.now
        × (length votes.now ≡ vote_limit) }
    ensures { result ≡ drops_higher (model_of w.now) r.0 }
{
    let root = w.heights[r.0 as usize];
    for i in 0..w.vote_count {
        let target = w.targets[i].0 as usize;
        let height = w.heights[target];
        if !votes[i] & (root.0 < height.0) {
            return true;
        }
    }
    false
}

// A refusal, which leaves the witness.
pub fn refuse(w: Witness, why: Refusal) -> Moved
    ensures { result ≡ refused_move w why }
{
    Moved {
        outcome: Err(why),
        witness: w,
    }
}

// A move of the root to `r`.
pub fn move_root(w: Witness, r: Place) -> Moved
    requires { Sound w }
    ensures { IsMoved w (single (decide_move (model_of w) r.0)) result }
{
    let at = r.0 as usize;
    let count = w.checkpoint_count;
    if count <= at {
        return refuse(w, Refusal::PlaceNotHeld);
    }
    if bars_root(w, r) {
        return refuse(w, Refusal::RootNotFinal);
    }
    let k = kept_by(w, r);
    let votes = votes_kept(&w, r, &k);
    if risks_evidence(w, r, &votes) {
        return refuse(w, Refusal::EvidenceDropped);
    }
    if drops_higher(&w, r, &votes) {
        return refuse(w, Refusal::HigherVoteDropped);
    }
    Moved {
        outcome: Ok(()),
        witness: prune(w, r, k),
    }
}
