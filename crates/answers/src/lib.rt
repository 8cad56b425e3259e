// The public calls of the witness that ask what it holds, write it out, or check a list against it. None asks anything
// of its caller: what is handed in is checked. Those that read a log are in crate `witness`.
#![tactic(auto)]

ghost use Rattle.std.specs.Prelude.{◌≡◌};
ghost use Rattle.model.specs.Buffer.{write_answer_of};
ghost use Rattle.model.specs.Evidence.{our_list};
ghost use Rattle.model.specs.Paper.{paper};
ghost use Rattle.checker.specs.Check.{check_of};
ghost use Rattle.answers.specs.Calls.{check_call, status_call, support_call, conflict_call, write_call, write_buffer};
ghost use Rattle.answers.specs.Answers.{status_of, support_of, conflict_of, PassesRow40, PassesRow41};

use finality::Backing;
use model::{Place, Refusal, Status};
use state::Witness;

// Row 40: whether the state is sound.
fn sound(w: Witness) -> Result<(), Refusal>
    ensures { PassesRow40 w result }
{
    if sound::is_sound(w) {
        Ok(())
    } else {
        Err(Refusal::UnsoundState)
    }
}

// Row 41: whether a place is held.
fn held(w: &Witness, p: Place) -> Result<(), Refusal>
    ensures { PassesRow41 w.now p.0 result }
{
    if (p.0 as usize) < w.checkpoint_count {
        Ok(())
    } else {
        Err(Refusal::PlaceNotHeld)
    }
}

// Checking a list of charges: row 40, then 50 to 57 entry by entry; else the sum of the named bonds.
pub fn check_list(w: Witness, list: &[u8]) -> Result<u64, Refusal>
    ensures { check_of result ≡ check_call w list.now }
{
    sound(w)?;
    checker::check_list(&w, list)
}

// The standing of a checkpoint: row 40, then 41 where the place isn't held.
pub fn status(w: Witness, p: Place) -> Result<Status, Refusal>
    ensures { status_of result ≡ status_call w p.0 }
{
    sound(w)?;
    held(&w, p)?;
    Ok(finality::status(w, p))
}

// The support of a link between two held places: the members that voted for it, their bonds, and whether it is a
// quorum.
pub fn support(w: Witness, s: Place, t: Place) -> Result<Backing, Refusal>
    ensures { support_of result ≡ support_call w s.0 t.0 }
{
    sound(w)?;
    held(&w, s)?;
    held(&w, t)?;
    Ok(finality::support(w, s, t))
}

// Whether any two final checkpoints conflict.
pub fn conflict(w: Witness) -> Result<bool, Refusal>
    ensures { conflict_of result ≡ conflict_call w }
{
    sound(w)?;
    Ok(finality::conflict(w))
}

// Our list of charges into a lent buffer: row 40, then 60 where the buffer is shorter, which leave it unwritten; else
// the list's length.
pub fn write_list(w: Witness, buf: &mut [u8]) -> Result<usize, Refusal>
    ensures { (write_answer_of result ≡ write_call our_list w buf.old)
        × (buf.new ≡ write_buffer our_list w buf.old) }
{
    sound(w)?;
    evidence::our_list(&w, buf)
}

// The board paper into a lent buffer: row 40, then 60 where the buffer is shorter, which leave it unwritten; else the
// paper's length.
pub fn write_paper(w: Witness, buf: &mut [u8]) -> Result<usize, Refusal>
    ensures { (write_answer_of result ≡ write_call paper w buf.old)
        × (buf.new ≡ write_buffer paper w buf.old) }
{
    sound(w)?;
    board::write_paper(w, buf)
}
