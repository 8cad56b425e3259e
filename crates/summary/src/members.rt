// The lines of the members, by rising id, and the bonds of those who broke a rule.
ghost use Rattle.std.specs.Prelude.{◌≡◌, ◌+◌, ◌*◌, ◌≤◌, length};
ghost use mathlib.Core.List.{flat_map};
ghost use Rattle.model.specs.Evidence.{violator?, by_id};
ghost use Rattle.model.specs.Report.{member_text, member_line};
ghost use Rattle.model.specs.Support.{sum};
ghost use Rattle.state.specs.State.{model_of};
ghost use Rattle.conduct.specs.Shown.{conduct_of, Shown};
ghost use Rattle.state.specs.Sound.{Sound};
ghost use Rattle.text.specs.Put.{Put};

use conduct::Breach;
use model::MAX_MEMBERS;
use state::Witness;

// A member's line.
pub fn member_line(buf: &mut [u8], at: usize, id: u16, bond: u64, shown: Option<Breach>) -> usize
    requires { at + 112 ≤ length buf.old }
    ensures { Put buf.old at (member_text id bond (conduct_of shown)) buf.new result × (result ≤ at + 112) }
{
    match shown {
        None => lines::clear_line(buf, at, id, bond),
        Some(pair) => lines::broken_line(buf, at, id, bond, pair.earlier, pair.later),
    }
}

// The line of each member, with what its votes show.
pub fn member_lines(
    w: &Witness,
    shown: &[Option<Breach>; MAX_MEMBERS],
    buf: &mut [u8],
    at: usize,
) -> usize
    requires { Sound w.now × Shown w.now shown.now × (at + 112 * w.now.member_count ≤ length buf.old) }
    ensures { Put buf.old at (flat_map (member_line (model_of w.now)) (by_id (model_of w.now).members)) buf.new
        result × (result ≤ at + 112 * w.now.member_count) }
{
    let places = conduct::order(&w.ids[..w.member_count]);
    let sorted = &places[..w.member_count];
    let mut next = at;
    for place in sorted {
        let p = *place as usize;
        next = member_line(buf, next, w.ids[p], w.bonds[p], shown[p]);
    }
    next
}

// The bonds of the members who broke a rule.
pub fn named_bonds(w: &Witness, shown: &[Option<Breach>; MAX_MEMBERS]) -> u64
    requires { Sound w.now × Shown w.now shown.now }
    ensures { result ≡ sum (violator? (model_of w.now)) (model_of w.now).members }
{
    let mut named: u64 = 0;
    for i in 0..w.member_count {
        if shown[i].is_some() {
            named += w.bonds[i];
        }
    }
    named
}
