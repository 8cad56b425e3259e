// Searches over the flat table of the checkpoints' names, 32 bytes each. A name is compared where it stands, in the
// table and in the log: none is copied. Others choose the names, and may choose them alike in any of their bytes, so a
// scan that looks at one word of each goes over to the next word at every name that has that word and is another.
#![tactic(auto)]

ghost use Rattle.std.specs.Prelude.{◌≡◌, false, ℕ, ◌+◌, ◌*◌, ◌≤◌, ◌<◌, length, MatchOption};
ghost use Rattle.model.specs.Bytes.{part};
ghost use Rattle.model.specs.Limits.{checkpoint_limit};
ghost use Rattle.model.specs.Lists.{first_index, pair_below, same_bytes};
ghost use Rattle.names.specs.Rows.{rows};
ghost use Rattle.names.specs.Slots.{slots, slot_of};

// How many slots there are, a prime: the remainders of words are taken by it too.
const PRIME: u64 = 15809;

const SLOTS: usize = PRIME as usize;

// The first index from `from` on whose name may be the one of s at `at`: every name passed over has another word of 8
// bytes from byte d on. Four names are looked at in a turn; of fewer that are left the first is given without a look.
// A `for` over the names that gives an Option takes 1.8 times as many instructions.
fn next_alike(names: &[u8], count: usize, from: usize, s: &[u8], at: usize, d: usize) -> usize
    requires { (32 * count ≤ length names.now) × (from ≤ count) × (at + 32 ≤ length s.now) × (d + 8 ≤ 32) }
    ensures { (from ≤ result)
        × (result ≤ count)
        × ((k : ℕ)
        → k < result
        → from ≤ k
        → same_bytes (part (k * 32) 32 names.now) (part at 32 s.now) ≡ false) }
{
    let word = wire::le64(s, at + d);
    let mut i = from;
    while i + 4 <= count {
        let k = i * 32 + d;
        if wire::le64(names, k) == word {
            return i;
        }
        if wire::le64(names, k + 32) == word {
            return i + 1;
        }
        if wire::le64(names, k + 64) == word {
            return i + 2;
        }
        if wire::le64(names, k + 96) == word {
            return i + 3;
        }
        i += 4;
    }
    i
}

// The index of the first of the `count` names that is the 32 bytes of s at `at`. Of the four words of a name the last
// is looked at first.
pub fn find_name(names: &[u8], count: usize, s: &[u8], at: usize) -> Option<usize>
    requires { (32 * count ≤ length names.now) × (at + 32 ≤ length s.now) }
    ensures { MatchOption result
        (first_index (λ n. same_bytes n (part at 32 s.now)) (rows count names.now) ≡ count)
        (λ i. (i ≡ first_index (λ n. same_bytes n (part at 32 s.now)) (rows count names.now)) × (i < count)) }
{
    let mut which: usize = 3;
    let mut i = next_alike(names, count, 0, s, at, which * 8);
    while i < count {
        if wire::same(names, i * 32, s, at, 32) {
            return Some(i);
        }
        which = (which + 1) % 4;
        i = next_alike(names, count, i + 1, s, at, which * 8);
    }
    None
}

// The slot of the name at `at`, by all of its bytes. The factors are such that 512 names which are numbered in two of
// their bytes all have slots of their own, whichever two these are.
fn slot(names: &[u8], at: usize) -> usize
    requires { at + 32 ≤ length names.now }
    ensures { (result ≡ slot_of (part at 32 names.now)) × (result < slots) }
{
    let low = wire::le64(names, at) % PRIME + wire::le64(names, at + 8) % PRIME * 1286;
    let high = wire::le64(names, at + 16) % PRIME + wire::le64(names, at + 24) % PRIME * 1286;
    ((low + high * 1238) % PRIME) as usize
}

// Whether some name stands twice among the `count` names. The slot of each is marked: a name whose slot is not marked
// yet is new, and one whose slot is marked is looked for among the names before it.
pub fn names_twice(names: &[u8], count: usize) -> bool
    requires { (32 * count ≤ length names.now) × (count ≤ checkpoint_limit) }
    ensures { result
        ≡ pair_below count
        (λ i j. same_bytes (part (i * 32) 32 names.now) (part (j * 32) 32 names.now)) }
{
    let mut marked = [false; SLOTS];
    for j in 0..count {
        let k = slot(names, j * 32);
        if marked[k] && find_name(names, j, names, j * 32).is_some() {
            return true;
        }
        marked[k] = true;
    }
    false
}
