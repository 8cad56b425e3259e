// What is decided on a bundle of votes.
ghost use Rattle.std.specs.Prelude.{◌≡◌, ◌+◌, ◌≤◌, length, drop};
ghost use Rattle.model.specs.Bytes.{field, part};
ghost use Rattle.model.specs.Change.{whole};
ghost use Rattle.model.specs.Decide.{decide_bundle};
ghost use Rattle.model.specs.Model.{Model};
ghost use Rattle.state.specs.Tables.{NamesHeld, HeightsHeld, AncestorsHeld};
ghost use Rattle.ballots.specs.Fit.{FitLink};
ghost use Rattle.registry.specs.Decision.{decision_of};
ghost use Rattle.rules.specs.Decision.{BitsFit};

use ballots::links::link_of;
use ballots::view::View;
use model::Refusal;
use registry::Decision;

// Rows 61 and 62, on the bundle at `at`, of so many members; then 31 to 34, which are the same for all its votes.
pub fn decide_bundle(
    view: &View,
    members: usize,
    log: &[u8],
    at: usize,
) -> Result<Decision, Refusal>
    requires { FitLink view.now × (at + 89 ≤ length log.now) }
    ensures result_value { (m : Model)
        → length m.members ≡ members
        → NamesHeld m view.now.names.now (length view.now.parents.now)
        → HeightsHeld m view.now.heights.now (length view.now.parents.now)
        → AncestorsHeld m view.now.parents.now (length view.now.parents.now)
        → let s = drop at log.now in
        decision_of m s result
        ≡ whole (decide_bundle m (part 1 16 s) (part 17 32 s) (part 49 32 s) (field 81 4 s) (field 85 4 s)) }
    ensures bits_fit { BitsFit members (drop at log.now) result }
{
    if bits::any_from(log, at + 1, members) {
        return Err(Refusal::BitWithoutMember);
    }
    let votes = bits::number(log, at + 1);
    if votes == 0 {
        return Err(Refusal::NoBitSet);
    }
    let link = link_of(view, log, at + 17);
    Ok(Decision::Bundle(votes, link))
}
