// Which places of a sound state are justified, which are the root or have a link with a quorum to a direct child, and
// so the standing of each.
#![tactic(auto)]

ghost use Rattle.std.specs.Prelude.{◌≡◌, ◌<◌};
ghost use Rattle.model.specs.Limits.{checkpoint_limit};
ghost use Rattle.state.specs.Sound.{Sound};
ghost use Rattle.state.specs.State.{model_of};
ghost use Rattle.tally.specs.Ready.{Ready};
ghost use Rattle.standing.specs.Answers.{IsAnalysis, status_in};

use model::{MAX_CHECKPOINTS, Place, Status};
use state::Witness;
use tally::links::{self, Mark};
use tally::votes::{self, Ballots};
use voters::Voters;

// What is known of each place.
#[derive(Clone, Copy)]
pub struct Analysis {
    pub marks: [Mark; MAX_CHECKPOINTS],
}

// One pass over the places, by the votes that are ready to be counted. Places below t are marked when the links to t
// are counted, for a source's place is below its target's.
pub fn analyse(w: &Witness, b: &Ballots) -> Analysis
    requires { Ready w.now b.now }
    ensures { IsAnalysis (model_of w.now) result }
{
    let bonds = &w.bonds[..w.member_count];
    let mut marks = [Mark::NONE; MAX_CHECKPOINTS];
    marks[0].justified = true;
    marks[0].finalizing = true;
    for t in 1..w.checkpoint_count {
        let mut voters = [Voters::NOBODY; MAX_CHECKPOINTS];
        votes::gather(
            &b.who,
            &w.sources,
            &b.chains.next,
            b.chains.head[t],
            &mut voters,
        );
        marks[t].justified = links::reaches(&voters[..t], &marks, bonds, b.bar);
        let p = usize::from(w.parents[t].0);
        marks[p].finalizing |= voters[p].carries(bonds, b.bar);
    }
    Analysis { marks }
}

// What is known of each place of a sound state.
pub fn statuses(w: &Witness) -> Analysis
    requires { Sound w.now }
    ensures { IsAnalysis (model_of w.now) result }
{
    analyse(w, &votes::prepare(w))
}

impl Analysis {
    // The standing of a place.
    pub fn status_of(&self, p: Place) -> Status
        requires { p.0 < checkpoint_limit }
        ensures { result ≡ status_in self.now p.0 }
    {
        let mark = self.marks[usize::from(p.0)];
        if mark.is_final() {
            return Status::Final;
        }
        if mark.justified {
            return Status::Justified;
        }
        Status::Plain
    }
}
