// Row 40: whether a state that was handed in is one that the rules allow. One function for each part of the row; that
// of the rule for a quorum stands in crate state.
#![tactic(auto)]

ghost use Rattle.std.specs.Prelude.{◌≡◌, ◌*◌, ◌<◌, ◌≤◌, length};
ghost use Rattle.model.specs.Limits.{checkpoint_limit, vote_limit};
ghost use Rattle.state.specs.Sound.{Typed, sound?};
ghost use Rattle.tables.specs.Places.{Falling};
ghost use Rattle.sound.specs.Parts.{counts_pass, members_pass, tree_passes, votes_pass};

use model::{Height, MAX_CHECKPOINTS, MAX_MEMBERS, MAX_ROOT_HEIGHT, MAX_VOTES, Place};
use state::Witness;
use state::quotas::is_permitted;

// A root is held, and no more of anything than there is room for.
fn counts_pass(members: usize, checkpoints: usize, votes: usize) -> bool
    ensures { result ≡ counts_pass members checkpoints votes }
{
    (0 < checkpoints)
        & (members <= MAX_MEMBERS)
        & (checkpoints <= MAX_CHECKPOINTS)
        & (votes <= MAX_VOTES)
}

// Each bond is in range, and no id is held twice.
fn members_pass(ids: &[u16], bonds: &[u64]) -> bool
    requires { length bonds.now ≡ length ids.now }
    ensures { result ≡ members_pass ids.now bonds.now (length ids.now) }
{
    tables::members::bonds_in_range(bonds) && !tables::members::ids_twice(ids)
}

// The root is low enough, each other checkpoint is one step above its parent, and no name is held twice.
fn tree_passes(names: &[u8], parents: &[Place], heights: &[Height]) -> bool
    requires { (32 * length parents.now ≤ length names.now)
        × (0 < length parents.now)
        × (length parents.now ≤ length heights.now)
        × (length parents.now ≤ checkpoint_limit) }
    ensures { result ≡ tree_passes names.now parents.now heights.now (length parents.now) }
{
    heights[0].0 <= MAX_ROOT_HEIGHT
        && tables::tree::tree_sound(parents, heights)
        && !names::names_twice(names, parents.len())
}

// Each vote is of a held member, between held places, from an ancestor, and none is held twice.
fn votes_pass(
    ids: &[u16],
    parents: &[Place],
    voters: &[u16],
    sources: &[Place],
    targets: &[Place],
) -> bool
    requires { Falling (length parents.now) parents.now
        × (length voters.now ≤ length sources.now)
        × (length voters.now ≤ length targets.now)
        × (length voters.now ≤ vote_limit) }
    ensures { result
        ≡ votes_pass ids.now (length ids.now) parents.now (length parents.now) voters.now sources.now targets.now
        (length voters.now) }
{
    tables::votes::votes_sound(ids, parents, voters, sources, targets)
        && !tables::votes::votes_twice(voters, sources, targets)
}

// Whether the state passes row 40; and, for the callers' proofs, what its types say.
pub fn is_sound(w: Witness) -> bool
    ensures { (result ≡ sound? w) × Typed w }
{
    is_permitted(w.numbers.quota())
        && counts_pass(w.member_count, w.checkpoint_count, w.vote_count)
        && members_pass(&w.ids[..w.member_count], &w.bonds[..w.member_count])
        && tree_passes(
            &w.names,
            &w.parents[..w.checkpoint_count],
            &w.heights[..w.checkpoint_count],
        )
        && votes_pass(
            &w.ids[..w.member_count],
            &w.parents[..w.checkpoint_count],
            &w.voters[..w.vote_count],
            &w.sources[..w.vote_count],
            &w.targets[..w.vote_count],
        )
}
