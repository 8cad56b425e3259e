// What programs print of a log: the report; or, of a log that was read to its end, our list of charges or the board
// paper. Of a log that is stopped they say what the report says of the stop.
#![tactic(auto)]

use model::Refusal;
use std::io::Read;
use stream::Log;
use turns::Fate;

// The report of a log.
pub fn print_report<R: Read>(rt: HostRuntime, from: &mut R) {
    let log = stream::read_log(rt, from, true);
    if let Fate::Whole = log.fate {
        stream::write_end(rt, &log);
    }
}

// Whether the log was read whole. Where its last record is cut, that is told.
pub fn is_whole(rt: HostRuntime, log: &Log) -> bool {
    let Fate::Whole = log.fate else {
        return false;
    };
    if log.left != 0 {
        stream::write_end(rt, log);
    }
    log.left == 0
}

// What was written into the buffer, to standard output; or why there is nothing: the call was refused, which the state
// of a log that was read never calls for.
fn print(rt: HostRuntime, buf: &[u8], written: Result<usize, Refusal>) {
    let text = written.ok().and_then(|n| buf.get(..n)).unwrap_or(&[]);
    if text.is_empty() {
        buffered::complain(
            rt,
            b"log: nothing is printed, since the witness is not sound\n",
        );
    } else {
        buffered::print(rt, text);
    }
}

// Our list. It names each of 128 members at most once: 7 bytes and 6 for each.
pub fn print_list(rt: HostRuntime, log: &Log) {
    if is_whole(rt, log) {
        let mut buf = [0u8; 775];
        let written = answers::write_list(log.witness, &mut buf);
        print(rt, &buf, written);
    }
}

// The board paper: 512 checkpoints make 11 pages of 3,250 bytes.
pub fn print_paper(rt: HostRuntime, log: &Log) {
    if is_whole(rt, log) {
        let mut buf = [0u8; 35750];
        let written = answers::write_paper(log.witness, &mut buf);
        print(rt, &buf, written);
    }
}
