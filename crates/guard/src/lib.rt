// A guard for a member's own key (change request K6): it remembers the heights of the vote that it signed last, and
// signs no vote that would break a slashing condition with one that it signed before.
#![tactic(auto)]

ghost use Rattle.std.specs.Prelude.{◌≡◌};
ghost use Rattle.model.specs.Answer.{row_of};
ghost use Rattle.guard.specs.Signing.{fresh_guard, guard_rows, sign_answer_of, IsSigning};

use model::{Height, Refusal};

// The guard's record, one small structure in the host's memory: the heights of the vote signed last, and whether there
// was one: `used` is 0 until a vote is signed, and 1 from then on. It is a number and no bool, and as long as a height,
// so that any 12 bytes are a record: there is no padding, and whatever is not 0 counts as 1.
#[repr(C)]
#[derive(Clone, Copy, Debug, PartialEq, Eq)]
pub struct Guard {
    pub source: Height,
    pub target: Height,
    pub used: u32,
}

// The answer, that the vote may be signed or why not; and the record afterwards.
#[derive(Clone, Copy, Debug, PartialEq, Eq)]
pub struct Signing {
    pub answer: Result<(), Refusal>,
    pub guard: Guard,
}

// A record that has signed nothing.
pub fn fresh() -> Guard
    ensures { result ≡ fresh_guard }
{
    Guard {
        source: Height(0),
        target: Height(0),
        used: 0,
    }
}

// The row that refuses a vote of these heights: 65, 66 or 67, in this order. A fresh record meets 65 only.
fn judge(g: Guard, source: Height, target: Height) -> Result<(), Refusal>
    ensures { sign_answer_of result ≡ guard_rows g source.0 target.0 }
{
    if target <= source {
        return Err(Refusal::SourceNotBelowTarget);
    }
    if g.used != 0 {
        if target <= g.target {
            return Err(Refusal::TargetNotAboveLast);
        }
        if source < g.source {
            return Err(Refusal::SourceBelowLast);
        }
    }
    Ok(())
}

// A vote of these heights, by value: it may be signed, and the record then has its heights; or a row refuses it, and
// the record is as it was.
pub fn step(g: Guard, source: Height, target: Height) -> Signing
    ensures { IsSigning g source.0 target.0 result.answer result.guard }
{
    let answer = judge(g, source, target);
    let signed = Guard {
        source,
        target,
        used: 1,
    };
    match answer {
        Ok(()) => Signing {
            answer,
            guard: signed,
        },
        Err(_) => Signing { answer, guard: g },
    }
}

// The same on the record in the host's memory, which is lent, and rewritten there at a signing.
pub fn sign(g: &mut Guard, source: Height, target: Height) -> Result<(), Refusal>
    ensures { IsSigning g.old source.0 target.0 result g.new }
{
    let signing = step(*g, source, target);
    *g = signing.guard;
    signing.answer
}

// The row that refuses a vote, or 0.
pub fn row_of(a: Result<(), Refusal>) -> u64
    ensures { result ≡ row_of (sign_answer_of a) }
{
    match a {
        Ok(()) => 0,
        Err(r) => u64::from(u8::from(r)),
    }
}
