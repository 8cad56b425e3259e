// What is decided on a vote record.
ghost use Rattle.std.specs.Prelude.{◌≡◌, ◌+◌, ◌≤◌, length, drop};
ghost use Rattle.model.specs.Bytes.{field, part};
ghost use Rattle.model.specs.Change.{single};
ghost use Rattle.model.specs.Decide.{decide_vote};
ghost use Rattle.model.specs.Model.{Model};
ghost use Rattle.ballots.specs.Fit.{Fit, HeldIn};
ghost use Rattle.registry.specs.Decision.{decision_of};

use ballots::view::View;
use ballots::votes::{room, vote_of};
use model::Refusal;
use registry::Decision;
use search::Links;

// Rows 30 to 36, on the vote record at `at`.
pub fn decide_vote(view: &View, links: &Links, log: &[u8], at: usize) -> Result<Decision, Refusal>
    requires { Fit view.now links.now × (at + 75 ≤ length log.now) }
    ensures { (m : Model)
        → HeldIn m view.now links.now
        → let s = drop at log.now in
        decision_of m s result
        ≡ single (decide_vote m (field 1 2 s) (part 3 32 s) (part 35 32 s) (field 67 4 s) (field 71 4 s)) }
{
    let passed = vote_of(view, links, log, at);
    let ballot = room(passed, view.votes)?;
    Ok(Decision::Vote(ballot))
}
