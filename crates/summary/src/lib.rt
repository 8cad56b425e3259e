// The report's summary of a state: a line for each checkpoint and each member, and that of the bonds.
#![tactic(auto)]

pub mod checkpoints;
pub mod members;

ghost use Rattle.std.specs.Prelude.{◌≤◌, length};
ghost use Rattle.model.specs.Report as Report;
ghost use Rattle.state.specs.State.{model_of};
ghost use Rattle.state.specs.Sound.{Sound};
ghost use Rattle.text.specs.Put.{Put};

use state::Witness;

// The summary, at the start of the buffer; answers its length. 512 lines of 80 bytes, 128 of 112 and one of 80 fit.
pub fn summary(w: Witness, buf: &mut [u8]) -> usize
    requires { Sound w × (65536 ≤ length buf.old) }
    ensures { Put buf.old 0 (Report.summary (model_of w)) buf.new result × (result ≤ 65536) }
{
    let one = checkpoints::checkpoint_lines(&w, buf, 0);
    let shown = conduct::conducts(&w);
    let two = members::member_lines(&w, &shown, buf, one);
    let total = voters::total_bond(&w.bonds[..w.member_count]);
    let named = members::named_bonds(&w, &shown);
    let conflict = finality::conflict(w);
    lines::total_line(buf, two, total, named, conflict)
}
