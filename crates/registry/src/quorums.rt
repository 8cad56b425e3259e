// What is decided on a quorum.
ghost use Rattle.std.specs.Prelude.{◌≡◌, ◌+◌, ◌≤◌, length, drop};
ghost use Rattle.model.specs.Bytes.{field};
ghost use Rattle.model.specs.Change.{single};
ghost use Rattle.model.specs.Decide.{members_fixed, decide_quorum};
ghost use Rattle.model.specs.Model.{Model};
ghost use Rattle.state.specs.State.{rule_of, quota_in};
ghost use Rattle.registry.specs.Decision.{decision_of};

use crate::Decision;
use model::{Quota, Refusal};
use state::Numbers;
use state::quotas::is_permitted;

// Rows 63 and 64, on the quorum record at `at`; `fixed` is row 10's condition.
pub fn decide_quorum(
    numbers: Numbers,
    fixed: bool,
    log: &[u8],
    at: usize,
) -> Result<Decision, Refusal>
    requires { at + 5 ≤ length log.now }
    ensures { (m : Model)
        → members_fixed m ≡ fixed
        → m.rule ≡ rule_of (quota_in numbers)
        → let s = drop at log.now in
        decision_of m s result ≡ single (decide_quorum m (record { p = field 1 2 s; q = field 3 2 s })) }
{
    if fixed {
        return Err(Refusal::QuorumFixed);
    }
    let quota = Quota {
        p: wire::be16(log, at + 1),
        q: wire::be16(log, at + 3),
    };
    // row 64, both halves
    if !is_permitted(quota) {
        return Err(Refusal::BadQuorum);
    }
    if numbers.is_given() {
        return Err(Refusal::BadQuorum);
    }
    Ok(Decision::Quorum(quota))
}
