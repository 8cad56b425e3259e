// The links to one target.
ghost use Rattle.std.specs.Prelude.{◌≡◌, ◌&&◌, ◌≤◌, length};
ghost use Rattle.model.specs.Lists.{any_below};
ghost use Rattle.voters.specs.Weights.{Bonds, Fits, weight_of, carried};
ghost use Rattle.tally.specs.Chains.{voters_at};
ghost use Rattle.tally.specs.Marks.{justified_at};
ghost use Rattle.tally.specs.Weights.{IsWeighed, IsHeaviest, heavier};

use voters::{Bar, Voters};

// What is known of a place: whether it is justified, and whether that would make it final: it is the root, or a link
// with a quorum leads from it to a direct child.
#[derive(Clone, Copy, Debug, PartialEq, Eq)]
pub struct Mark {
    pub justified: bool,
    pub finalizing: bool,
}

impl Mark {
    // Of a place of which nothing is known yet.
    pub const NONE: Mark = Mark {
        justified: false,
        finalizing: false,
    };

    // Whether the place is final.
    pub fn is_final(self) -> bool
        ensures { result ≡ (self.justified && self.finalizing) }
    {
        self.justified & self.finalizing
    }
}

// Whether a link with a quorum leads on from a justified place: `voters` has those of the link from each place below
// the target.
pub fn reaches(voters: &[Voters], marks: &[Mark], bonds: &[u64], bar: Bar) -> bool
    requires { (length voters.now ≤ length marks.now) × Bonds bonds.now (length bonds.now) × Fits bar }
    ensures { result
        ≡ any_below (length voters.now)
        (λ s. justified_at marks.now s && carried bonds.now (length bonds.now) bar (voters_at voters.now s)) }
{
    for (s, v) in voters.iter().enumerate() {
        if marks[s].justified && v.carries(bonds, bar) {
            return true;
        }
    }
    false
}

// Voters, and what their bonds come to.
#[derive(Clone, Copy, Debug, PartialEq, Eq)]
pub struct Weighed {
    pub voters: Voters,
    pub bonds: u64,
}

// The heavier of two sets of voters, the first where they weigh the same.
fn heavier(one: Weighed, other: Voters, bonds: &[u64]) -> Weighed
    requires { Bonds bonds.now (length bonds.now) × IsWeighed bonds.now (length bonds.now) one }
    ensures { IsWeighed bonds.now (length bonds.now) result
        × (result.voters ≡ heavier (weight_of bonds.now (length bonds.now)) one.voters other) }
{
    let weight = other.weigh(bonds);
    if one.bonds < weight {
        return Weighed {
            voters: other,
            bonds: weight,
        };
    }
    one
}

// The voters with the most bond, of the links from justified places; those of the lowest place among equals.
pub fn heaviest(voters: &[Voters], marks: &[Mark], bonds: &[u64]) -> Weighed
    requires { (length voters.now ≤ length marks.now) × Bonds bonds.now (length bonds.now) }
    ensures { IsHeaviest bonds.now (length bonds.now) marks.now (voters_at voters.now) (length voters.now) result }
{
    let mut best = Weighed {
        voters: Voters::NOBODY,
        bonds: 0,
    };
    for (s, v) in voters.iter().enumerate() {
        if marks[s].justified {
            best = heavier(best, *v, bonds);
        }
    }
    best
}
