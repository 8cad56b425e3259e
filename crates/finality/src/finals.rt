// The final checkpoints of an analysis, and whether two of them conflict.
ghost use Rattle.std.specs.Prelude.{◌≡◌, true, ℕ, ◌+◌, ◌≤◌, ◌<◌, length};
ghost use Rattle.model.specs.Limits.{checkpoint_limit};
ghost use Rattle.model.specs.Lists.{any_below};
ghost use Rattle.tables.specs.Places.{tree_of, Falling};
ghost use Rattle.search.specs.Chains.{last_below};
ghost use Rattle.tally.specs.Marks.{final_at};
ghost use Rattle.finality.specs.Answers.{stray};

use model::Place;
use tables::tree::is_ancestor;
use tally::links::Mark;

// The greatest final place. There is one, since the root is final.
pub fn last_final(marks: &[Mark]) -> Place
    requires { (0 < length marks.now) × (length marks.now ≤ checkpoint_limit) × (final_at marks.now 0 ≡ true) }
    ensures { result.0 + 1 ≡ last_below (length marks.now) (final_at marks.now) }
{
    let mut last = Place(0);
    for (p, mark) in marks.iter().enumerate() {
        if mark.is_final() {
            let here = p as u16;
            last = Place(here);
        }
    }
    last
}

// Whether some final place below f is no ancestor of f: `marks` has what is known of the places below f.
pub fn strays(marks: &[Mark], parents: &[Place], f: Place) -> bool
    requires { (length marks.now ≤ f.0) × (f.0 < length parents.now) × Falling (f.0 + 1) parents.now }
    ensures { (places : ℕ)
        → f.0 < places
        → Falling places parents.now
        → result ≡ any_below (length marks.now) (stray (final_at marks.now) (tree_of places parents.now) f.0) }
{
    for (p, mark) in marks.iter().enumerate() {
        let here = Place(p as u16);
        if mark.is_final() && !is_ancestor(parents, here, f) {
            return true;
        }
    }
    false
}
