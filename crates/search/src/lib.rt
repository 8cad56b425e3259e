// A table of numbers in chains, one for each of 4093 slots: equal numbers are in one chain, so that each is compared
// with few others.
#![tactic(auto)]

ghost use Rattle.std.specs.Prelude.{◌≡◌, Bool, ◌&&◌, ℕ, ◌+◌, ◌≤◌, ◌<◌, eqb, length, get_or, set};
ghost use Rattle.model.specs.Limits.{vote_limit};
ghost use Rattle.model.specs.Lists.{any_below, pair_below};
ghost use Rattle.search.specs.Chains.{Chain, Indexed};

use model::MAX_VOTES;

const SLOTS: usize = 4093;

// Whoever chooses the numbers can make a chain long: after so many steps all numbers are looked at, which many
// comparisons at once make the faster way then.
const MAX_STEPS: usize = 64;

// Numbers in chains: themselves, the last of each slot, and of each the last before it that has its slot. A number
// stands there by its index plus 1, and 0 ends a chain. How many there are is kept by the owner of the numbers.
#[derive(Clone, Copy)]
pub struct Links {
    pub numbers: [u64; MAX_VOTES],
    pub heads: [u16; SLOTS],
    pub nexts: [u16; MAX_VOTES],
}

// Whether x is among the numbers. Every one is looked at: many are then compared at once.
fn is_held(numbers: &[u64], x: u64) -> bool
    ensures { result ≡ any_below (length numbers.now) (λ k. eqb (get_or numbers.now k 0) x) }
{
    let mut hit = false;
    for n in numbers {
        hit |= *n == x;
    }
    hit
}

impl Links {
    // The numbers in chains.
    pub fn of(numbers: &[u64]) -> Links
        requires { length numbers.now ≤ vote_limit }
        ensures indexed { Indexed (length numbers.now) result.numbers result.heads result.nexts }
        ensures held { (k : ℕ) → k < length numbers.now → get_or result.numbers k 0 ≡ get_or numbers.now k 0 }
    {
        let mut links = Links {
            numbers: [0; MAX_VOTES],
            heads: [0; SLOTS],
            nexts: [0; MAX_VOTES],
        };
        for (k, x) in numbers.iter().enumerate() {
            links.put_first(k, *x);
        }
        links
    }

    // Takes x in as the k-th number: it stands first in its chain.
    pub fn put_first(&mut self, k: usize, x: u64)
        requires { (k < vote_limit) × Indexed k self.old.numbers self.old.heads self.old.nexts }
        ensures { (self.new.numbers ≡ set self.old.numbers k x)
            × Indexed (k + 1) self.new.numbers self.new.heads self.new.nexts }
    {
        let slot = (x % SLOTS as u64) as usize;
        self.numbers[k] = x;
        self.nexts[k] = self.heads[slot];
        self.heads[slot] = (k + 1) as u16;
    }

    // Whether x is among the first `count` numbers: it is looked for in its own chain.
    pub fn contains(&self, count: usize, x: u64) -> bool
        requires { (count ≤ vote_limit) × Indexed count self.now.numbers self.now.heads self.now.nexts }
        ensures { result ≡ any_below count (λ k. eqb (get_or self.now.numbers k 0) x) }
    {
        let slot = (x % SLOTS as u64) as usize;
        self.in_chain(self.heads[slot], count, x)
    }

    // Whether x is among the first `count` numbers, of which all that could be x are in the chain that begins with
    // `from`.
    fn in_chain(&self, from: u16, count: usize, x: u64) -> bool
        requires { (count ≤ vote_limit)
            × (from ≤ count)
            × ((k : ℕ) → k < count → get_or self.now.nexts k 0 ≤ k) }
        ensures { (on : ℕ → Bool)
            → Chain on count self.now.nexts from
            → any_below count (λ k. on k && eqb (get_or self.now.numbers k 0) x) ≡ any_below count
            (λ k. eqb (get_or self.now.numbers k 0) x)
            → result ≡ any_below count (λ k. eqb (get_or self.now.numbers k 0) x) }
    {
        let mut hit = false;
        let mut at = from;
        for _ in 0..MAX_STEPS {
            if at == 0 {
                return hit;
            }
            let k = usize::from(at - 1);
            hit |= self.numbers[k] == x;
            at = self.nexts[k];
        }
        if 0 < at {
            return is_held(&self.numbers[..count], x);
        }
        hit
    }
}

// Whether some number stands twice: each is looked for in its chain, among those before it.
pub fn numbers_twice(numbers: &[u64]) -> bool
    requires { length numbers.now ≤ vote_limit }
    ensures { result
        ≡ pair_below (length numbers.now) (λ i j. eqb (get_or numbers.now i 0) (get_or numbers.now j 0)) }
{
    let links = Links::of(numbers);
    let mut hit = false;
    for (j, x) in numbers.iter().enumerate() {
        hit |= links.in_chain(links.nexts[j], j, *x);
    }
    hit
}
