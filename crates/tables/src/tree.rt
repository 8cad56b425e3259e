// The held checkpoints, two tables: of their parents and of their heights.
ghost use Rattle.std.specs.Prelude.{◌≡◌, ℕ, ◌+◌, ◌≤◌, ◌<◌, length};
ghost use Rattle.model.specs.Lists.{all_below};
ghost use Rattle.model.specs.Tree.{ancestor?};
ghost use Rattle.tables.specs.Places.{tree_of, is_step, Falling};

use model::{Height, Place};

// Whether each checkpoint but the root has its parent at a smaller place, at a height one less than its own.
pub fn tree_sound(parents: &[Place], heights: &[Height]) -> bool
    requires { length parents.now ≤ length heights.now }
    ensures { result ≡ all_below (length parents.now) (λ i. is_step parents.now heights.now i) }
{
    for i in 1..parents.len() {
        let p = parents[i].0 as usize;
        if i <= p {
            return false;
        }
        if heights[i].0 as u64 != heights[p].0 as u64 + 1 {
            return false;
        }
    }
    true
}

// Whether s is an ancestor of t: the walk from t by parents, whose places fall, stops at s or below it. What stands
// past t is no matter, so the answer is that of every tree with these parents that has t.
pub fn is_ancestor(parents: &[Place], s: Place, t: Place) -> bool
    requires { (t.0 < length parents.now) × Falling (t.0 + 1) parents.now }
    ensures { (count : ℕ)
        → t.0 < count
        → Falling count parents.now
        → result ≡ ancestor? (tree_of count parents.now) s.0 t.0 }
{
    let mut at = t;
    while s.0 < at.0 {
        at = parents[at.0 as usize];
    }
    (at.0 == s.0) & (s.0 < t.0)
}
