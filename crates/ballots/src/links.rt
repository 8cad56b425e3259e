// The link that a vote or a bundle names: what is decided on it, whoever votes for it.
ghost use Rattle.std.specs.Prelude.{◌≡◌, ℕ, ◌+◌, ◌≤◌, ◌<◌, ◌&&◌, eqb, length};
ghost use Rattle.model.specs.Answer.{and_then};
ghost use Rattle.model.specs.Bytes.{field, part};
ghost use Rattle.model.specs.Decide.{link_between, link_of};
ghost use Rattle.model.specs.Model.{Model};
ghost use Rattle.tables.specs.Places.{height_at};
ghost use Rattle.state.specs.Tables.{NamesHeld, HeightsHeld, AncestorsHeld};
ghost use Rattle.ballots.specs.Ballot.{link_in, link_answer_of, Within};
ghost use Rattle.ballots.specs.Fit.{FitNames, FitLink};

use crate::view::View;
use model::{Height, Place, Refusal};
use names::find_name;
use tables::tree::is_ancestor;

// A link between held checkpoints.
#[derive(Clone, Copy, Debug, PartialEq, Eq)]
pub struct Link {
    pub source: Place,
    pub target: Place,
}

// Rows 31 and 32, on the names at `from` and behind it.
fn find_endpoints(view: &View, log: &[u8], from: usize) -> Result<Link, Refusal>
    requires { FitNames view.now.names.now (length view.now.parents.now) × (from + 64 ≤ length log.now) }
    ensures target_height_value { (m : Model) (source_height target_height : ℕ)
        → NamesHeld m view.now.names.now (length view.now.parents.now)
        → and_then (link_answer_of result) (λ l. link_between m l source_height target_height)
        ≡ link_of m (part from 32 log.now) (part (from + 32) 32 log.now) source_height target_height }
    ensures within { Within (length view.now.parents.now) result }
{
    let count = view.parents.len();
    let s = find_name(view.names, count, log, from).ok_or(Refusal::SourceNotHeld)?;
    let t = find_name(view.names, count, log, from + 32).ok_or(Refusal::TargetNotHeld)?;
    Ok(Link {
        source: Place(s as u16),
        target: Place(t as u16),
    })
}

// Row 33: whether the heights that a link is given with are those of its places.
fn heights_agree(
    heights: &[Height],
    link: Link,
    source_height: Height,
    target_height: Height,
) -> bool
    requires { (link.source.0 < length heights.now) × (link.target.0 < length heights.now) }
    ensures { result
        ≡ (eqb source_height.0 (height_at heights.now link.source.0)
        && eqb target_height.0 (height_at heights.now link.target.0)) }
{
    let from = heights[link.source.0 as usize];
    let to = heights[link.target.0 as usize];
    (source_height == from) & (target_height == to)
}

// Rows 33 and 34, on a link between held places.
fn check_link(
    view: &View,
    link: Link,
    source_height: Height,
    target_height: Height,
) -> Result<Link, Refusal>
    requires { FitLink view.now
        × (link.source.0 < length view.now.parents.now)
        × (link.target.0 < length view.now.parents.now) }
    ensures { (m : Model)
        → HeightsHeld m view.now.heights.now (length view.now.parents.now)
        → AncestorsHeld m view.now.parents.now (length view.now.parents.now)
        → link_answer_of result ≡ link_between m (link_in link) source_height.0 target_height.0 }
{
    if !heights_agree(view.heights, link, source_height, target_height) {
        return Err(Refusal::WrongHeight);
    }
    if !is_ancestor(view.parents, link.source, link.target) {
        return Err(Refusal::NotAncestor);
    }
    Ok(link)
}

// Rows 31 to 34, on what stands at `from`: two names, then the heights given for them.
pub fn link_of(view: &View, log: &[u8], from: usize) -> Result<Link, Refusal>
    requires { FitLink view.now × (from + 72 ≤ length log.now) }
    ensures { (m : Model)
        → NamesHeld m view.now.names.now (length view.now.parents.now)
        → HeightsHeld m view.now.heights.now (length view.now.parents.now)
        → AncestorsHeld m view.now.parents.now (length view.now.parents.now)
        → let s = log.now in
        link_answer_of result
        ≡ link_of m (part from 32 s) (part (from + 32) 32 s) (field (from + 64) 4 s) (field (from + 68) 4 s) }
{
    let link = find_endpoints(view, log, from)?;
    let source_height = Height(wire::be32(log, from + 64));
    let target_height = Height(wire::be32(log, from + 68));
    check_link(view, link, source_height, target_height)
}
