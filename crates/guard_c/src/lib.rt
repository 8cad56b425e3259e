// The guard for a member's own key, as the static library that Rust and C link: two exports over crate guard, with the
// same clauses.
#![tactic(auto)]

ghost use Rattle.std.specs.Prelude.{◌≡◌};
ghost use Rattle.model.specs.Answer.{row_of};
ghost use Rattle.guard.specs.Signing.{fresh_guard, guard_rows, record_after};

use guard::Guard;
use model::Height;

// For a caller in Rust or C: a record that has signed nothing.
#[unsafe(no_mangle)]
pub extern "C" fn ffw_guard_fresh() -> Guard
    ensures { result ≡ fresh_guard }
{
    guard::fresh()
}

// For a caller in Rust or C: a vote of these heights. 0 where it may be signed, and the record then has its heights; or
// the row, and the record is as it was.
#[unsafe(no_mangle)]
pub extern "C" fn ffw_guard_sign(g: &mut Guard, source: Height, target: Height) -> u64
    ensures { (result ≡ row_of (guard_rows g.old source.0 target.0))
        × (g.new ≡ record_after g.old source.0 target.0) }
{
    guard::row_of(guard::sign(g, source, target))
}
