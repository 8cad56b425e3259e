// What was told of a record as bytes, and back: the row that refused it, or each vote of a bundle.
#![tactic(auto)]

ghost use Rattle.std.specs.Prelude.{◌≡◌, cond, ◌<◌, ◌≤◌, length};
ghost use Rattle.model.specs.Answer.{row_of};
ghost use Rattle.model.specs.Limits.{member_limit};
ghost use Rattle.state.specs.Reading.{padded};
ghost use Rattle.ballots.specs.Ballot.{change_of};
ghost use Rattle.entries.specs.Entries.{later, votes_in, last_rows};

use ballots::votes::Ballot;
use model::{MAX_MEMBERS, Refusal};
use state::{Outcome, Passed};

// The number of the row that refused a vote of a bundle; 0 where none did.
#[tactic(auto, using(model::proofs::Refusals::refusal_small), unfolding(model::specs::Answer::row_of))]
fn row_of(vote: Result<Ballot, Refusal>) -> u8
    ensures { (result ≡ row_of (change_of vote)) × (result < 128) }
{
    match vote {
        Ok(_) => 0,
        Err(r) => u8::from(r),
    }
}

// Its entry: the row, with 128 added where the vote is not the first of its bundle.
pub fn vote_entry(vote: Result<Ballot, Refusal>, is_first: bool) -> u8
    ensures { result ≡ cond is_first (row_of (change_of vote)) (later (row_of (change_of vote))) }
{
    let row = row_of(vote);
    if is_first { row } else { 128 + row }
}

// How many votes an outcome tells of; 0 where the record is no bundle, or is refused whole.
fn votes_in(o: Outcome) -> usize
    ensures { result ≡ votes_in o }
{
    match o {
        Ok(Passed::Bundled(n)) => n,
        Ok(Passed::Nothing | Passed::Taken) | Err(_) => 0,
    }
}

// The rows of the votes of the last record that was passed, from the entries of all; 0 past them, and where the record
// is no bundle or is refused whole.
pub fn last_votes(rows: &[u8], used: usize, last: Outcome) -> [u8; MAX_MEMBERS]
    requires { (used ≤ length rows.now) × (votes_in last ≤ used) × (votes_in last ≤ member_limit) }
    ensures { result ≡ padded (last_rows (votes_in last) used rows.now) }
{
    let n = votes_in(last);
    let from = used - n;
    let mut votes = [0u8; MAX_MEMBERS];
    for (i, entry) in rows[from..used].iter().enumerate() {
        votes[i] = *entry % 128;
    }
    votes
}
