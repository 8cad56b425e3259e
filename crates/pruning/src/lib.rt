// What a move of the root up keeps, and the state with the rest dropped, compacted in place.
#![tactic(auto)]

ghost use Rattle.std.specs.Prelude.{◌≡◌, cond, ◌<◌, eqb};
ghost use Rattle.state.specs.Sound.{Sound, SizedTree, SizedVotes};
ghost use Rattle.state.specs.State.{tree_part, vote_part, with_tree_part, with_vote_part, with_root};
ghost use Rattle.pruning.specs.Kept.{IsKept};
ghost use Rattle.pruning.specs.Pruned.{TreeFits, VotesFit, pruned_tree, pruned_votes};

use model::{MAX_CHECKPOINTS, Place};
use state::Witness;

// By place: whether it stays, and how many that stay are below it, which is its place then. The number is that of a
// place that goes, too: so the two arrays are not one of Options.
#[derive(Clone, Copy)]
pub struct Kept {
    pub stays: [bool; MAX_CHECKPOINTS],
    pub anew: [Place; MAX_CHECKPOINTS],
}

// What a move of the root to `r` keeps: r, and of the places after it those whose parent stays.
pub fn kept_by(w: Witness, r: Place) -> Kept
    requires { Sound w × (r.0 < w.checkpoint_count) }
    ensures { IsKept w r.0 result }
{
    let root = r.0 as usize;
    let mut stays = [false; MAX_CHECKPOINTS];
    let mut anew = [Place(0); MAX_CHECKPOINTS];
    stays[root] = true;
    let mut n: u16 = 1;
    for p in root + 1..w.checkpoint_count {
        let parent = w.parents[p].0 as usize;
        anew[p] = Place(n);
        if stays[parent] {
            stays[p] = true;
            n += 1;
        }
    }
    Kept { stays, anew }
}

// The place of a parent: the new root has none, and stands for it, so that it is 0 when counted anew.
fn parent_of(p: usize, root: usize, above: Place) -> usize
    ensures { result ≡ cond (eqb p root) root above.0 }
{
    if p == root { root } else { above.0 as usize }
}

// Drops the checkpoints that go: those that stay are in front.
fn prune_tree(w: &mut Witness, r: Place, k: &Kept)
    requires { TreeFits w.old r.0 k.now × SizedTree (tree_part w.old) }
    ensures { w.new ≡ with_tree_part w.old (pruned_tree w.old r.0 k.now w.old.checkpoint_count) }
{
    let root = r.0 as usize;
    let mut n: usize = 0;
    for p in 0..w.checkpoint_count {
        if k.stays[p] {
            w.names.copy_within(p * 32..p * 32 + 32, n * 32);
            w.parents[n] = k.anew[parent_of(p, root, w.parents[p])];
            w.heights[n] = w.heights[p];
            n += 1;
        }
    }
    w.checkpoint_count = n;
}

// Drops the votes that go: those whose source and target both stay are in front.
fn prune_votes(w: &mut Witness, k: &Kept)
    requires { VotesFit w.old × SizedVotes (vote_part w.old) }
    ensures { w.new ≡ with_vote_part w.old (pruned_votes w.old k.now w.old.vote_count) }
{
    let mut n: usize = 0;
    for j in 0..w.vote_count {
        let source = w.sources[j].0 as usize;
        let target = w.targets[j].0 as usize;
        if k.stays[source] & k.stays[target] {
            w.voters[n] = w.voters[j];
            w.sources[n] = k.anew[source];
            w.targets[n] = k.anew[target];
            n += 1;
        }
    }
    w.vote_count = n;
}

// The state with the root moved to `r`: what is kept stands in front, in order, and what stands past it is as it was.
pub fn prune(mut w: Witness, r: Place, k: Kept) -> Witness
    requires { Sound w × (r.0 < w.checkpoint_count) × IsKept w r.0 k }
    ensures { result ≡ with_root w r.0 }
{
    prune_tree(&mut w, r, &k);
    prune_votes(&mut w, &k);
    w
}
