// The votes by target, and the voters of every link to one target.
ghost use Rattle.std.specs.Prelude.{◌≡◌, ℕ, ◌≤◌, ◌<◌, length};
ghost use Rattle.model.specs.Limits.{member_limit, checkpoint_limit, vote_limit};
ghost use Rattle.tables.specs.Places.{place_at};
ghost use Rattle.state.specs.Sound.{Sound};
ghost use Rattle.tally.specs.Chains.{no_voters, voters_at, Placed, ByTarget, Walkable, Tallied};
ghost use Rattle.tally.specs.Ready.{Ready};

use model::{MAX_CHECKPOINTS, MAX_VOTES, Place};
use state::Witness;
use voters::{Bar, Voters, total_bond};

// The place of each vote's member, found by its id.
pub fn member_places(ids: &[u16], voters: &[u16]) -> [u16; MAX_VOTES]
    requires { (length ids.now ≤ member_limit) × (length voters.now ≤ vote_limit) }
    ensures { Placed ids.now voters.now (length voters.now) result }
{
    let mut places = [0u16; MAX_VOTES];
    for (k, voter) in voters.iter().enumerate() {
        places[k] = tables::find_id(ids, *voter).unwrap_or(ids.len()) as u16;
    }
    places
}

// The votes in chains, one for each target. A vote stands in a chain by its number plus 1, and 0 ends the chain:
// `head` has the last vote for a target, `next` the last vote before a vote that has its target.
#[derive(Clone, Copy)]
pub struct Buckets {
    pub head: [u16; MAX_CHECKPOINTS],
    pub next: [u16; MAX_VOTES],
}

// Puts the votes for these targets into chains.
pub fn bucket(targets: &[Place]) -> Buckets
    requires { (length targets.now ≤ vote_limit)
        × ((k : ℕ) → k < length targets.now → place_at targets.now k < checkpoint_limit) }
    ensures { ByTarget targets.now (length targets.now) result.head result.next }
{
    let mut head = [0u16; MAX_CHECKPOINTS];
    let mut next = [0u16; MAX_VOTES];
    for (k, target) in targets.iter().enumerate() {
        let at = usize::from(target.0);
        next[k] = head[at];
        head[at] = (k + 1) as u16;
    }
    Buckets { head, next }
}

// The votes of a witness, ready to be counted: the place of each vote's member, the votes in chains, and the bar for a
// quorum.
#[derive(Clone, Copy)]
pub struct Ballots {
    pub who: [u16; MAX_VOTES],
    pub chains: Buckets,
    pub bar: Bar,
}

// Makes the votes of a sound state ready.
pub fn prepare(w: &Witness) -> Ballots
    requires { Sound w.now }
    ensures { Ready w.now result }
{
    let ids = &w.ids[..w.member_count];
    let bonds = &w.bonds[..w.member_count];
    let voters = &w.voters[..w.vote_count];
    let targets = &w.targets[..w.vote_count];
    Ballots {
        who: member_places(ids, voters),
        chains: bucket(targets),
        bar: Bar {
            quota: w.numbers.quota(),
            total: total_bond(bonds),
        },
    }
}

// The voters of each source's link, by the chain of one target's votes that begins with `first`, into an array of
// nobody. `who` has the places of the votes' members, and `sources` has their sources.
pub fn gather(who: &[u16], sources: &[Place], next: &[u16], first: u16, voters: &mut [Voters])
    requires walk { Walkable who.now sources.now next.now first }
    requires blank { voters.old ≡ no_voters }
    ensures { Tallied who.now sources.now next.now first (voters_at voters.new) }
{
    let mut at = first;
    while let Some(vote) = at.checked_sub(1) {
        let k = usize::from(vote);
        let source = usize::from(sources[k].0);
        voters[source].insert(usize::from(who[k]));
        at = next[k];
    }
}
