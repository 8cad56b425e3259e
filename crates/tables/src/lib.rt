// Searches over the held tables; that of the names has a crate of its own, `names`. Here a member is found by its id;
// what the tables hold as a whole is asked in the modules: of the members, of the tree, of the votes.
#![tactic(auto)]

ghost use Rattle.std.specs.Prelude.{◌≡◌, ◌<◌, eqb, length, MatchOption};
ghost use Rattle.model.specs.Lists.{first_index};

pub mod members;
pub mod tree;
pub mod votes;

// The index of the first of the ids that is `id`.
pub fn find_id(ids: &[u16], id: u16) -> Option<usize>
    ensures { MatchOption result (first_index (λ x. eqb x id) ids.now ≡ length ids.now)
        (λ i. (i ≡ first_index (λ x. eqb x id) ids.now) × (i < length ids.now)) }
{
    ids.iter().position(|&x| x == id)
}
