// What the witness answers of finality: the backing of a link, the standing of a checkpoint, and the conflict of
// finals. Every answer takes a sound state: arrays of their types, and a model in which all that is held is
// well-formed.
#![tactic(auto)]

pub mod finals;

ghost use Rattle.std.specs.Prelude.{◌≡◌, ◌<◌, length};
ghost use Rattle.model.specs.Finality.{status, conflicting?};
ghost use Rattle.model.specs.Support.{support};
ghost use Rattle.state.specs.Sound.{Sound};
ghost use Rattle.state.specs.State.{model_of};
ghost use Rattle.voters.specs.Weights.{Bonds, Fits};
ghost use Rattle.finality.specs.Answers.{IsBacking, backing_of};

use model::{MAX_CHECKPOINTS, Place, Status};
use standing::statuses;
use state::Witness;
use tally::votes;
use voters::{Bar, Voters};

// The backing of a link: how many members are behind it, the sum of their bonds, and whether that is a quorum.
#[derive(Clone, Copy, Debug, PartialEq, Eq)]
pub struct Backing {
    pub number: u32,
    pub bonds: u64,
    pub quorum: bool,
}

// The backing that voters give a link.
fn backed_by(v: Voters, bonds: &[u64], bar: Bar) -> Backing
    requires { Bonds bonds.now (length bonds.now) × Fits bar }
    ensures { IsBacking bonds.now (length bonds.now) bar v result }
{
    let sum = v.weigh(bonds);
    Backing {
        number: v.count(),
        bonds: sum,
        quorum: bar.is_met_by(sum),
    }
}

// The backing of the link s -> t.
pub fn support(w: Witness, s: Place, t: Place) -> Backing
    requires { Sound w × (s.0 < w.checkpoint_count) × (t.0 < w.checkpoint_count) }
    ensures { backing_of result ≡ support (model_of w) s.0 t.0 }
{
    let bonds = &w.bonds[..w.member_count];
    let b = votes::prepare(&w);
    let source = usize::from(s.0);
    let target = usize::from(t.0);
    let mut voters = [Voters::NOBODY; MAX_CHECKPOINTS];
    votes::gather(
        &b.who,
        &w.sources,
        &b.chains.next,
        b.chains.head[target],
        &mut voters,
    );
    backed_by(voters[source], bonds, b.bar)
}

// The standing of a held place.
pub fn status(w: Witness, p: Place) -> Status
    requires { Sound w × (p.0 < w.checkpoint_count) }
    ensures { result ≡ status (model_of w) p.0 }
{
    statuses(&w).status_of(p)
}

// Whether any two final checkpoints conflict: whether some final place is neither the greatest of them nor its
// ancestor.
pub fn conflict(w: Witness) -> bool
    requires { Sound w }
    ensures { result ≡ conflicting? (model_of w) }
{
    let a = statuses(&w);
    let f = finals::last_final(&a.marks[..w.checkpoint_count]);
    finals::strays(&a.marks[..usize::from(f.0)], &w.parents, f)
}
