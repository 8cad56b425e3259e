// What is decided on a checkpoint.
ghost use Rattle.std.specs.Prelude.{◌≡◌, ◌+◌, ◌≤◌, length, drop};
ghost use Rattle.model.specs.Bytes.{part};
ghost use Rattle.model.specs.Change.{single};
ghost use Rattle.model.specs.Decide.{decide_checkpoint};
ghost use Rattle.model.specs.Model.{Model};
ghost use Rattle.state.specs.Tables.{NamesHeld, HeightsHeld, Low};
ghost use Rattle.ballots.specs.Fit.{FitNames};
ghost use Rattle.registry.specs.Decision.{decision_of};

use crate::Decision;
use model::{Height, MAX_CHECKPOINTS, Place, Refusal};
use names::find_name;

// Rows 20 to 22, on the checkpoint record at `at`: the names and the heights of those held.
pub fn decide_checkpoint(
    names: &[u8],
    heights: &[Height],
    log: &[u8],
    at: usize,
) -> Result<Decision, Refusal>
    requires { FitNames names.now (length heights.now)
        × Low (length heights.now) heights.now
        × (at + 65 ≤ length log.now) }
    ensures { (m : Model)
        → NamesHeld m names.now (length heights.now)
        → HeightsHeld m heights.now (length heights.now)
        → let s = drop at log.now in
        decision_of m s result ≡ single (decide_checkpoint m (part 1 32 s) (part 33 32 s)) }
{
    let count = heights.len();
    if find_name(names, count, log, at + 1).is_some() {
        return Err(Refusal::NameHeld);
    }
    let p = find_name(names, count, log, at + 33).ok_or(Refusal::ParentNotHeld)?;
    if MAX_CHECKPOINTS <= count {
        return Err(Refusal::CheckpointsFull);
    }
    let height = Height(heights[p].0 + 1);
    Ok(Decision::Checkpoint(Place(p as u16), height))
}
