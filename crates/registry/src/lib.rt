// What the rows of document 01, and of the change requests, decide on a member, a checkpoint and a quorum. The type by
// which that is said is the one for every record; what is decided on a record of any kind is in crate `rules`.
#![tactic(auto)]

use ballots::links::Link;
use ballots::votes::Ballot;
use model::{Height, Place, Quota, Refusal};

pub mod checkpoints;
pub mod members;
pub mod quorums;

// What is decided on a record that no row refuses: nothing is there; or what is to be held: a member's id and bond; the
// place of a checkpoint's parent, and its own height; a vote; a quorum's quota. Of a bundle that is not refused whole:
// how many votes it has, and what rows 31 to 34 make of their link.
#[derive(Clone, Copy, Debug, PartialEq, Eq)]
pub enum Decision {
    Nothing,
    Member(u16, u64),
    Checkpoint(Place, Height),
    Vote(Ballot),
    Bundle(usize, Result<Link, Refusal>),
    Quorum(Quota),
}
