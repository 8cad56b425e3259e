// What is decided on a vote.
ghost use Rattle.std.specs.Prelude.{◌≡◌, ◌+◌, ◌≤◌, ◌<◌, length, drop};
ghost use Rattle.model.specs.Answer.{and_then};
ghost use Rattle.model.specs.Bytes.{field, part};
ghost use Rattle.model.specs.Change.{single};
ghost use Rattle.model.specs.Decide.{cast, vote_of, room};
ghost use Rattle.model.specs.Model.{Model};
ghost use Rattle.state.specs.Tables.{KeysHeld, key_of};
ghost use Rattle.ballots.specs.Ballot.{link_in, vote_in, ballot_of, link_answer_of, change_of, cast_vote};
ghost use Rattle.ballots.specs.Fit.{FitVotes, Fit, HeldIn};

use crate::links::{Link, link_of};
use crate::view::View;
use model::{MAX_VOTES, Place, Refusal};
use search::Links;
use tables::find_id;
use tables::votes::key;

// A held member's vote between held checkpoints.
#[derive(Clone, Copy, Debug, PartialEq, Eq)]
pub struct Ballot {
    pub voter: u16,
    pub source: Place,
    pub target: Place,
}

impl Ballot {
    // The ballot as one number.
    pub fn key(&self) -> u64
        ensures { (result ≡ key_of (vote_in self.now)) × (self.now.source.0 < 65536) × (self.now.target.0 < 65536) }
    {
        key(self.voter, self.source, self.target)
    }
}

// Row 35, on a member's vote for a link that rows 31 to 34 passed.
fn cast(links: &Links, votes: usize, link: Link, voter: u16) -> Result<Ballot, Refusal>
    requires { FitVotes votes links.now }
    ensures { (m : Model)
        → KeysHeld m links.now.numbers votes
        → ballot_of result ≡ cast m voter (link_in link) }
{
    let ballot = Ballot {
        voter,
        source: link.source,
        target: link.target,
    };
    if links.contains(votes, ballot.key()) {
        return Err(Refusal::VoteHeld);
    }
    Ok(ballot)
}

// Row 36, on what the rows before it made of a vote.
pub fn room(ballot: Result<Ballot, Refusal>, votes: usize) -> Result<Ballot, Refusal>
    ensures { (m : Model) → length m.votes ≡ votes → change_of result ≡ and_then (ballot_of ballot) (room m) }
{
    let cast = ballot?;
    if MAX_VOTES <= votes {
        return Err(Refusal::VotesFull);
    }
    Ok(cast)
}

// Rows 35 and 36, on a held member's vote for a link that rows 31 to 34 passed or refused.
pub fn decide_cast(
    links: &Links,
    votes: usize,
    link: Result<Link, Refusal>,
    voter: u16,
) -> Result<Ballot, Refusal>
    requires { FitVotes votes links.now }
    ensures { (m : Model)
        → KeysHeld m links.now.numbers votes
        → single (change_of result) ≡ cast_vote m (link_answer_of link) voter }
{
    let ballot = cast(links, votes, link?, voter);
    room(ballot, votes)
}

// Rows 30 to 35, on the vote record at `at`.
pub fn vote_of(view: &View, links: &Links, log: &[u8], at: usize) -> Result<Ballot, Refusal>
    requires { Fit view.now links.now × (at + 75 ≤ length log.now) }
    ensures { (m : Model)
        → HeldIn m view.now links.now
        → let s = drop at log.now in
        ballot_of result ≡ vote_of m (field 1 2 s) (part 3 32 s) (part 35 32 s) (field 67 4 s) (field 71 4 s) }
{
    let voter = wire::be16(log, at + 1);
    find_id(view.ids, voter).ok_or(Refusal::VoterNotHeld)?;
    let link = link_of(view, log, at + 3)?;
    cast(links, view.votes, link, voter)
}
