// A list's header and one of its entries: rows 50 to 56.
#![tactic(auto)]

ghost use Rattle.std.specs.Prelude.{◌≡◌, ◌+◌, ◌≤◌, length};
ghost use Rattle.model.specs.Checker.{own_vote?};
ghost use Rattle.model.specs.Model.{Model};
ghost use Rattle.state.specs.Tables.{MembersHeld};
ghost use Rattle.entry.specs.Entry.{VotersHeld, entry_at, FoundIs, HeaderIs};

use model::Refusal;

// An entry's member, by its place among the members and by its id, and its two votes.
#[derive(Clone, Copy, Debug, PartialEq, Eq)]
pub struct Pair {
    pub member: usize,
    pub id: u16,
    pub earlier: usize,
    pub later: usize,
}

// How many entries a list has: rows 50 to 52.
pub fn header_of(list: &[u8]) -> Result<usize, Refusal>
    ensures { HeaderIs list.now result }
{
    if list.len() < 7 {
        return Err(Refusal::ListLength);
    }
    let count = wire::be16(list, 5) as usize;
    if list.len() != 7 + 6 * count {
        return Err(Refusal::ListLength);
    }
    if !wire::same(list, 0, b"FFP", 0, 3) {
        return Err(Refusal::ListMark);
    }
    if wire::be16(list, 3) != 1 {
        return Err(Refusal::ListVersion);
    }
    Ok(count)
}

// Whether the vote with this number is held, and this member's.
fn own_vote(voters: &[u16], id: u16, number: usize) -> bool
    ensures { (m : Model) → VotersHeld m voters.now (length voters.now) → result ≡ own_vote? m id number }
{
    voters.get(number) == Some(&id)
}

// Rows 53 to 56 of the entry at `at`; `floor` is one more than the id before, and 0 for the first. The ids and the
// voters are those of the members and the votes that are held.
pub fn find_pair<'a>(
    ids: &'a [u16],
    voters: &'a [u16],
    list: &[u8],
    at: usize,
    floor: u32,
) -> Result<Pair, Refusal>
    requires { at + 6 ≤ length list.now }
    ensures { (m : Model) → MembersHeld m ids.now (length ids.now) → VotersHeld m voters.now (length voters.now)
        → FoundIs m floor (entry_at at list.now) result }
{
    let id = wire::be16(list, at);
    if (id as u32) < floor {
        return Err(Refusal::IdNotRising);
    }
    let Some(member) = tables::find_id(ids, id) else {
        return Err(Refusal::ChargedNotHeld);
    };
    let earlier = wire::be16(list, at + 2) as usize;
    let later = wire::be16(list, at + 4) as usize;
    let own = own_vote(voters, id, earlier) & own_vote(voters, id, later);
    if !own {
        return Err(Refusal::NotOwnVote);
    }
    if later <= earlier {
        return Err(Refusal::NotEarlier);
    }
    Ok(Pair {
        member,
        id,
        earlier,
        later,
    })
}
