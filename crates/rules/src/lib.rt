// What the rows of document 01, and of the change requests, decide on a record. What they decide on a member, a
// checkpoint and a quorum is in crate `registry`, and on a link and one vote for it in crate `ballots`.
#![tactic(auto)]

ghost use Rattle.std.specs.Prelude.{◌≡◌, ℕ, List, length, drop};
ghost use Rattle.model.specs.Decide.{members_fixed, decide};
ghost use Rattle.model.specs.Model.{Model};
ghost use Rattle.search.specs.declared.Links.{Links};
ghost use Rattle.state.specs.Reading.{outcome_of, brief};
ghost use Rattle.state.specs.State.{rule_of, quota_in};
ghost use Rattle.ballots.specs.Fit.{FitTree, Fit, HeldIn};
ghost use Rattle.registry.specs.Decision.{decision_of};
ghost use Rattle.rules.specs.Decision.{BitsFit};

use ballots::view::View;
use model::Refusal;
use registry::{Decision, checkpoints, members, quorums};
use search::Links;
use state::{Outcome, Passed};
use wire::records::Kind;

pub mod bundles;
pub mod votes;

// What the record comes to by the decision.
pub fn outcome_of(decision: Result<Decision, Refusal>) -> Outcome
    ensures { (m : Model) (n : ℕ) (s : List ℕ)
        → BitsFit n s decision
        → outcome_of result ≡ brief (decision_of m s decision).told }
{
    Ok(match decision? {
        Decision::Nothing => Passed::Nothing,
        Decision::Bundle(votes, _) => Passed::Bundled(votes),
        Decision::Member(..) | Decision::Checkpoint(..) | Decision::Vote(_) | Decision::Quorum(_) =>
            Passed::Taken,
    })
}

// Row 10's condition: a vote is held, or a checkpoint beside the root, or the root stands above height 0.
fn members_fixed(view: &View) -> bool
    requires { FitTree view.now }
    ensures { (m : Model) (links : Links) → HeldIn m view.now links → members_fixed m ≡ result }
{
    (0 < view.votes) | (1 < view.parents.len()) | (0 < view.heights[0].0)
}

// The record at `at`: row 4 where the kind is unknown (it has no size then, so it is never cut), row 5 where the log
// ends before the record does, then the rows of the kind. The tables are those of a sound witness; the votes come as
// numbers in chains, so that one is looked for among few.
pub fn decide_record(view: &View, links: &Links, log: &[u8], at: usize) -> Result<Decision, Refusal>
    requires { Fit view.now links.now }
    ensures { (m : Model)
        → m.rule ≡ rule_of (quota_in view.now.numbers)
        → HeldIn m view.now links.now
        → let s = drop at log.now in
        (decision_of m s result ≡ decide m s) × BitsFit (length view.now.ids.now) s result }
{
    if log.len() <= at {
        return Ok(Decision::Nothing);
    }
    let Ok(kind) = Kind::try_from(log[at]) else {
        return Err(Refusal::UnknownKind);
    };
    if log.len() - at < kind.size() {
        return Err(Refusal::CutRecord);
    }
    let fixed = members_fixed(view);
    match kind {
        Kind::Member => members::decide_member(view.ids, fixed, log, at),
        Kind::Checkpoint => checkpoints::decide_checkpoint(view.names, view.heights, log, at),
        Kind::Vote => votes::decide_vote(view, links, log, at),
        Kind::Quorum => quorums::decide_quorum(view.numbers, fixed, log, at),
        Kind::Bundle => bundles::decide_bundle(view, view.ids.len(), log, at),
    }
}
