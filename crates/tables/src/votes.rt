// The held votes, three tables of one length: of the voters, of the sources and of the targets.
ghost use Rattle.std.specs.Prelude.{◌≡◌, ◌≤◌, ◌<◌, length, get_or};
ghost use Rattle.model.specs.Limits.{vote_limit};
ghost use Rattle.model.specs.Lists.{all_below, pair_below};
ghost use Rattle.tables.specs.Places.{place_at, is_vote, is_sound, Falling};
ghost use Rattle.search.specs.Chains.{Indexed};
ghost use Rattle.tables.specs.Keys.{pack, Packed};

use crate::members::id_held;
use crate::tree::is_ancestor;
use model::{MAX_VOTES, Place};
use search::{Links, numbers_twice};

// A vote as one number. Two votes are the same exactly when their numbers are, since a place is of 16 bits, which a
// caller learns here.
pub fn key(id: u16, s: Place, t: Place) -> u64
    ensures { (result ≡ pack id s.0 t.0) × (s.0 < 65536) × (t.0 < 65536) }
{
    id as u64 * 4294967296 + s.0 as u64 * 65536 + t.0 as u64
}

// Each vote as one number.
fn keys(voters: &[u16], sources: &[Place], targets: &[Place]) -> [u64; MAX_VOTES]
    requires { (length voters.now ≤ length sources.now)
        × (length voters.now ≤ length targets.now)
        × (length voters.now ≤ vote_limit) }
    ensures { Packed voters.now sources.now targets.now (length voters.now) result }
{
    let mut keys = [0u64; MAX_VOTES];
    for (k, voter) in voters.iter().enumerate() {
        keys[k] = key(*voter, sources[k], targets[k]);
    }
    keys
}

// The votes' numbers in chains, to look for a vote among them.
pub fn index(voters: &[u16], sources: &[Place], targets: &[Place]) -> Links
    requires { (length voters.now ≤ length sources.now)
        × (length voters.now ≤ length targets.now)
        × (length voters.now ≤ vote_limit) }
    ensures { Indexed (length voters.now) result.numbers result.heads result.nexts
        × Packed voters.now sources.now targets.now (length voters.now) result.numbers }
{
    let keys = keys(voters, sources, targets);
    Links::of(&keys[..voters.len()])
}

// Whether some vote is held twice.
pub fn votes_twice(voters: &[u16], sources: &[Place], targets: &[Place]) -> bool
    requires { (length voters.now ≤ length sources.now)
        × (length voters.now ≤ length targets.now)
        × (length voters.now ≤ vote_limit) }
    ensures { result
        ≡ pair_below (length voters.now) (λ i j. is_vote voters.now sources.now targets.now (get_or voters.now j 0)
        (place_at sources.now j) (place_at targets.now j) i) }
{
    let keys = keys(voters, sources, targets);
    numbers_twice(&keys[..voters.len()])
}

// Whether the vote s -> t of the member `id` is of a held member, between held places, from an ancestor.
fn vote_sound(ids: &[u16], parents: &[Place], id: u16, s: Place, t: Place) -> bool
    requires { Falling (length parents.now) parents.now }
    ensures { result ≡ is_sound (length ids.now) ids.now (length parents.now) parents.now id s.0 t.0 }
{
    let source = s.0 as usize;
    let target = t.0 as usize;
    if parents.len() <= target {
        return false;
    }
    id_held(ids, id) & (source < parents.len()) & is_ancestor(parents, s, t)
}

// Whether each of the votes is sound.
pub fn votes_sound(
    ids: &[u16],
    parents: &[Place],
    voters: &[u16],
    sources: &[Place],
    targets: &[Place],
) -> bool
    requires { Falling (length parents.now) parents.now
        × (length voters.now ≤ length sources.now)
        × (length voters.now ≤ length targets.now) }
    ensures { result
        ≡ all_below (length voters.now) (λ k. is_sound (length ids.now) ids.now (length parents.now) parents.now
        (get_or voters.now k 0) (place_at sources.now k) (place_at targets.now k)) }
{
    let mut ok = true;
    for (k, voter) in voters.iter().enumerate() {
        ok &= vote_sound(ids, parents, *voter, sources[k], targets[k]);
    }
    ok
}
