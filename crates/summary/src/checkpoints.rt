// The lines of the checkpoints, by place.
ghost use Rattle.std.specs.Prelude.{◌+◌, ◌*◌, ◌≤◌, length};
ghost use Rattle.model.specs.Report.{checkpoint_lines};
ghost use Rattle.state.specs.State.{model_of};
ghost use Rattle.state.specs.Sound.{Sound};
ghost use Rattle.text.specs.Put.{Put};

use model::Place;
use state::Witness;

pub fn checkpoint_lines(w: &Witness, buf: &mut [u8], at: usize) -> usize
    requires { Sound w.now × (at + 80 * w.now.checkpoint_count ≤ length buf.old) }
    ensures { Put buf.old at (checkpoint_lines (model_of w.now) w.now.checkpoint_count) buf.new result ×
        (result ≤ at + 80 * w.now.checkpoint_count) }
{
    let standings = standing::statuses(w);
    let mut next = at;
    for p in 0..w.checkpoint_count {
        let place = Place(p as u16);
        let status = standings.status_of(place);
        next = lines::checkpoint_line(buf, next, place, w.heights[p], status);
    }
    next
}
