// The report of a log, its lines into a lent buffer. The log is fed in pieces: `open` takes its first bytes, `feed` the
// records of each piece, `close` its end. What a call does not pass over belongs to the front of the next piece.
#![tactic(auto)]

ghost use Rattle.std.specs.Prelude.{ℕ, ◌≤◌, length, drop, List, []};
ghost use Rattle.state.specs.State.{model_of};
ghost use Rattle.state.specs.Sound.{Sound};
ghost use Rattle.text.specs.Put.{Put};
ghost use Rattle.feeding.specs.Feed.{refused_by, paused_at, open_call, feed_call, end_text, end_fed, end_call, IsFed};

use feeding::{Fed, Pause};
use model::Refusal;
use state::{Beginning, Witness};

// The log's first bytes, the header among them: rows 1 to 3 end the report. `last` says that the log has no more bytes;
// where it may have, fewer than a header's are not yet judged. Any witness may be handed in. The records begin at the
// offset reached.
pub fn open(w: Witness, log: &[u8], last: bool, buf: &mut [u8]) -> Fed
    ensures { IsFed (open_call last (length buf.old) w log.now) 0 0 buf.old result
        buf.new }
{
    if log.len() < 37 && !last {
        return Fed::paused(Ok(Pause::Wants), 0, 0, w);
    }
    if buf.len() < 64 {
        return Fed::paused(Ok(Pause::Full), 0, 0, w);
    }
    let Beginning { outcome, witness } = state::begin(w, log);
    match outcome {
        Ok(()) => Fed::paused(Ok(Pause::Wants), 37, 0, witness),
        Err(r) => {
            let written = lines::stopped_line(buf, 0, r, 0);
            Fed {
                pause: Ok(Pause::Ended),
                next: 0,
                records: 0,
                written,
                witness,
            }
        }
    }
}

// Row 40: the call passes over nothing, and writes nothing.
fn unsound(w: Witness, records: u64, at: usize) -> Fed
    ensures { (buf : List ℕ) → IsFed (paused_at [] (refused_by 40) w records) at 0 buf result buf }
{
    Fed::paused(Err(Refusal::UnsoundState), at, records, w)
}

// The records of a piece from `at` on, the first of them record `records`: the lines of those that are refused. A
// record is read while 8,192 bytes of the buffer are free, which the lines of any bundle fit. After `Ended` no call
// belongs to the report.
pub fn feed(w: Witness, records: u64, log: &[u8], at: usize, buf: &mut [u8]) -> Fed
    ensures { IsFed (feed_call (length buf.old) w records (drop at log.now)) at 0 buf.old result
        buf.new }
{
    if !sound::is_sound(w) {
        return unsound(w, records, at);
    }
    feeding::read_on(w, records, log, at, buf)
}

// The last text of a report: the line of a record that stays cut, or the summary.
fn last_text(w: Witness, records: u64, left: usize, text: &mut [u8]) -> usize
    requires { Sound w × (65536 ≤ length text.old) }
    ensures { Put text.old 0 (end_text (model_of w) records left) text.new result }
{
    if left == 0 {
        return summary::summary(w, text);
    }
    lines::stopped_line(text, 0, Refusal::CutRecord, records)
}

// The last text, into a buffer that may be too short for it; it is made elsewhere first, so that nothing is written
// then.
fn put_end(w: Witness, records: u64, left: usize, buf: &mut [u8]) -> Fed
    requires { Sound w }
    ensures { IsFed (end_fed (length buf.old) w records left) 0 0 buf.old result buf.new }
{
    let mut whole = [0u8; 65536];
    let n = last_text(w, records, left, &mut whole);
    if buf.len() < n {
        return Fed::paused(Ok(Pause::Full), 0, records, w);
    }
    let written = text::put(buf, 0, &whole[..n]);
    Fed {
        pause: Ok(Pause::Ended),
        next: 0,
        records,
        written,
        witness: w,
    }
}

// The end of the log, where `left` of its bytes were not passed by a `feed` that wanted more: a record that stays cut,
// or the summary.
pub fn close(w: Witness, records: u64, left: usize, buf: &mut [u8]) -> Fed
    ensures { IsFed (end_call (length buf.old) w records left) 0 0 buf.old result buf.new }
{
    if sound::is_sound(w) {
        return put_end(w, records, left, buf);
    }
    unsound(w, records, 0)
}
