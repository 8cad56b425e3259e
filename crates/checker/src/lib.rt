// The checker of a list of charges against a witness: rows 50 to 57, and the sum of the bonds that the list names.
#![tactic(auto)]

ghost use Rattle.std.specs.Prelude.{◌≡◌, ◌+◌, ◌*◌, ◌<◌, length, drop};
ghost use Rattle.model.specs.Checker.{entries, check_from, check};
ghost use Rattle.state.specs.Sound.{Sound};
ghost use Rattle.state.specs.State.{model_of};
ghost use Rattle.checker.specs.Check.{check_of, low_of, high_of};

use entry::{find_pair, header_of};
use model::{Height, Refusal};
use slashing::breaks;
use state::Witness;

// The heights of a vote's source and of its target.
fn heights_of(w: &Witness, vote: usize) -> (Height, Height)
    requires { Sound w.now × (vote < w.now.vote_count) }
    ensures { (result.0.0 ≡ low_of w.now vote) × (result.1.0 ≡ high_of w.now vote) }
{
    let source = w.sources[vote].0 as usize;
    let target = w.targets[vote].0 as usize;
    (w.heights[source], w.heights[target])
}

// Rows 53 to 57, entry by entry, and the sum of the bonds.
fn check_entries(w: &Witness, list: &[u8], count: usize) -> Result<u64, Refusal>
    requires { Sound w.now × (length list.now ≡ 7 + 6 * count) }
    ensures { check_of result ≡ check_from (model_of w.now) 0 0 (entries count (drop 7 list.now)) }
{
    let ids = &w.ids[..w.member_count];
    let voters = &w.voters[..w.vote_count];
    let mut floor: u32 = 0;
    let mut sum: u64 = 0;
    for i in 0..count {
        let pair = find_pair(ids, voters, list, 7 + 6 * i, floor)?;
        let (s1, t1) = heights_of(w, pair.earlier);
        let (s2, t2) = heights_of(w, pair.later);
        if !breaks(s1, t1, s2, t2) {
            return Err(Refusal::NoViolation);
        }
        sum += w.bonds[pair.member];
        floor = (pair.id as u32) + 1;
    }
    Ok(sum)
}

// Whether a list of any bytes is right against a sound state: the sum of the bonds that it names, or the refusal.
pub fn check_list(w: &Witness, list: &[u8]) -> Result<u64, Refusal>
    requires { Sound w.now }
    ensures { check_of result ≡ check (model_of w.now) list.now }
{
    let count = header_of(list)?;
    check_entries(w, list, count)
}
