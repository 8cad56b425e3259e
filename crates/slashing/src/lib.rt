// The two slashing conditions, by the heights of two distinct votes of one member.
#![tactic(auto)]

ghost use Rattle.std.specs.Prelude.{◌≡◌};
ghost use Rattle.model.specs.Slashing.{surround, heights_break};

use model::Height;

// Whether a vote s1 -> t1 surrounds a vote s2 -> t2: condition II, in one order.
fn surrounds(s1: Height, t1: Height, s2: Height, t2: Height) -> bool
    ensures { result ≡ surround s1.0 t1.0 s2.0 t2.0 }
{
    (s1 < s2) & (s2 < t2) & (t2 < t1)
}

// Whether the votes s1 -> t1 and s2 -> t2 break a condition.
pub fn breaks(s1: Height, t1: Height, s2: Height, t2: Height) -> bool
    ensures { result ≡ heights_break s1.0 t1.0 s2.0 t2.0 }
{
    (t1 == t2) | surrounds(s1, t1, s2, t2) | surrounds(s2, t2, s1, t1)
}
