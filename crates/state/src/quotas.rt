// The quota that is held, and which quotas are permitted.
ghost use Rattle.std.specs.Prelude.{◌≡◌};
ghost use Rattle.model.specs.Rule.{given?, quota_of, permitted?};
ghost use Rattle.state.specs.State.{rule_of, quota_in};

use crate::Numbers;
use model::{MAX_PARTS, Quota};

impl Numbers {
    // Whether a record gave a quorum.
    pub fn is_given(self) -> bool
        ensures { result ≡ given? (rule_of (quota_in self)) }
    {
        self.p != 0 || self.q != 0
    }

    // The quota by the rule that is held: 2 of 3 parts where no record gave one.
    pub fn quota(self) -> Quota
        ensures { result ≡ quota_of (rule_of (quota_in self)) }
    {
        if self.is_given() {
            Quota {
                p: self.p,
                q: self.q,
            }
        } else {
            Quota { p: 2, q: 3 }
        }
    }
}

// What rows 40 and 64 ask of p and q.
pub fn is_permitted(k: Quota) -> bool
    ensures { result ≡ permitted? k }
{
    let p = k.p as u32;
    let q = k.q as u32;
    (p <= q) & (q < 2 * p) & (0 < q) & (k.q <= MAX_PARTS)
}
