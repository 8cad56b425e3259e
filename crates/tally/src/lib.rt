// Counting: the votes of a sound state by target, the voters of each link, whether a link with a quorum leads to a
// place, and which link's voters have the most. The voters of one link, and whether their bonds are a quorum, are in
// crate `voters`.
#![tactic(auto)]

pub mod links;
pub mod votes;
