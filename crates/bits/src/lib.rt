// The member bits of a bundle: 16 bytes of a slice, the bit of each member by its place.
#![tactic(auto)]

ghost use Rattle.std.specs.Prelude.{◌≡◌, ◌+◌, ◌≤◌, ◌<◌, leb, length};
ghost use Rattle.model.specs.Bits.{bit_set, set_places};
ghost use Rattle.model.specs.Bytes.{part};
ghost use Rattle.model.specs.Limits.{member_limit};
ghost use Rattle.model.specs.Lists.{any};

use model::MAX_MEMBERS;

// Whether the bit of place p is set.
pub fn is_set(s: &[u8], at: usize, p: usize) -> bool
    requires { (p < member_limit) × (at + 16 ≤ length s.now) }
    ensures { result ≡ bit_set (part at 16 s.now) p }
{
    (s[at + p / 8] >> (p % 8)) % 2 == 1
}

// How many bits are set.
pub fn number(s: &[u8], at: usize) -> usize
    requires { at + 16 ≤ length s.now }
    ensures { (result ≡ length (set_places (part at 16 s.now))) × (result ≤ member_limit) }
{
    let mut n = 0;
    for p in 0..MAX_MEMBERS {
        if is_set(s, at, p) {
            n += 1;
        }
    }
    n
}

// Whether a bit is set at a place from `from` on.
pub fn any_from(s: &[u8], at: usize, from: usize) -> bool
    requires { at + 16 ≤ length s.now }
    ensures { result ≡ any (λ p. leb from p) (set_places (part at 16 s.now)) }
{
    for p in from..MAX_MEMBERS {
        if is_set(s, at, p) {
            return true;
        }
    }
    false
}
