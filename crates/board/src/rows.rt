// What the paper shows of each checkpoint.
ghost use Rattle.std.specs.Prelude.{◌≡◌, ℕ, take};
ghost use Rattle.model.specs.Paper.{row_at};
ghost use Rattle.state.specs.Sound.{Sound};
ghost use Rattle.state.specs.State.{model_of};
ghost use Rattle.board.specs.Rows.{row_in};

use model::{Height, MAX_CHECKPOINTS, Place, Status};
use state::Witness;
use tally::{links, votes};
use voters::Voters;

// What the paper shows of a checkpoint: its place and height, the standing, and how many members, with how much bond,
// are behind the link that is shown: the one into the place from a justified source with the largest bond.
#[derive(Clone, Copy, Debug, PartialEq, Eq)]
pub struct Row {
    pub place: Place,
    pub height: Height,
    pub status: Status,
    pub number: u8,
    pub bonds: u64,
}

impl Row {
    // Of a place of which nothing is known yet.
    pub const NONE: Row = Row {
        place: Place(0),
        height: Height(0),
        status: Status::Plain,
        number: 0,
        bonds: 0,
    };
}

// A row for each place that is held. One pass over the places, after the standings are known: a link counts where its
// source is justified.
pub fn rows(w: &Witness) -> [Row; MAX_CHECKPOINTS]
    requires { Sound w.now }
    ensures { (p : ℕ) → row_in (take w.now.checkpoint_count result) p ≡ row_at (model_of w.now) p }
{
    let bonds = &w.bonds[..w.member_count];
    let b = votes::prepare(w);
    let a = standing::analyse(w, &b);
    let mut rows = [Row::NONE; MAX_CHECKPOINTS];
    for p in 0..w.checkpoint_count {
        let place = Place(p as u16);
        let mut voters = [Voters::NOBODY; MAX_CHECKPOINTS];
        votes::gather(
            &b.who,
            &w.sources,
            &b.chains.next,
            b.chains.head[p],
            &mut voters,
        );
        let best = links::heaviest(&voters[..p], &a.marks, bonds);
        rows[p] = Row {
            place,
            height: w.heights[p],
            status: a.status_of(place),
            number: best.voters.count() as u8,
            bonds: best.bonds,
        };
    }
    rows
}
