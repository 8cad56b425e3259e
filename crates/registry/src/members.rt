// What is decided on a member.
ghost use Rattle.std.specs.Prelude.{◌≡◌, ◌+◌, ◌≤◌, length, drop};
ghost use Rattle.model.specs.Bytes.{field};
ghost use Rattle.model.specs.Change.{single};
ghost use Rattle.model.specs.Decide.{members_fixed, decide_member};
ghost use Rattle.model.specs.Model.{Model};
ghost use Rattle.state.specs.Tables.{MembersHeld};
ghost use Rattle.registry.specs.Decision.{decision_of};

use crate::Decision;
use model::{MAX_BOND, MAX_MEMBERS, Refusal};
use tables::find_id;

// Rows 10 to 13, on the member record at `at`: the ids of those held; `fixed` is row 10's condition.
pub fn decide_member(ids: &[u16], fixed: bool, log: &[u8], at: usize) -> Result<Decision, Refusal>
    requires { at + 11 ≤ length log.now }
    ensures { (m : Model)
        → members_fixed m ≡ fixed
        → MembersHeld m ids.now (length ids.now)
        → let s = drop at log.now in
        decision_of m s result ≡ single (decide_member m (record { id = field 1 2 s; bond = field 3 8 s })) }
{
    if fixed {
        return Err(Refusal::MembersFixed);
    }
    let bond = wire::be64(log, at + 3);
    if bond == 0 || MAX_BOND < bond {
        return Err(Refusal::BondOutOfRange);
    }
    let id = wire::be16(log, at + 1);
    if find_id(ids, id).is_some() {
        return Err(Refusal::IdHeld);
    }
    if MAX_MEMBERS <= ids.len() {
        return Err(Refusal::MembersFull);
    }
    Ok(Decision::Member(id, bond))
}
