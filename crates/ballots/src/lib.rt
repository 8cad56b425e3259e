// What the rows of document 01, and of the change requests, decide on a link and on one vote for it. What they decide
// on a record is in crate `rules`.
#![tactic(auto)]

pub mod links;
pub mod view;
pub mod votes;
