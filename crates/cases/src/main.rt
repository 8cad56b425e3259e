// The report of each log that an argument names, under the log's name, as the report program prints it; of a log whose
// name begins with `paper` the board paper, as ffw_paper prints it. make.py makes the logs; the stored output comes
// from another implementation.
#![tactic(auto)]

use std::io::{Error, Read};
use std::rt::Env;

// What the system says of an argument that finds no room (ENAMETOOLONG).
const TOO_LONG: i32 = 36;

// The report of the log in an open file, or its board paper.
fn write_asked<R: Read>(rt: HostRuntime, from: &mut R, paper: bool) {
    if paper {
        let log = stream::read_log(rt, from, false);
        printer::print_paper(rt, &log);
    } else {
        printer::print_report(rt, from);
    }
}

fn show(rt: HostRuntime, path: &[u8]) {
    buffered::print(rt, path);
    buffered::print(rt, b"\n");
    match buffered::open_read(rt, path) {
        Ok(mut log) => write_asked(rt, &mut log, path.starts_with(b"paper")),
        Err(why) => buffered::fail(rt, path, &why),
    }
}

fn show_argument(rt: HostRuntime, i: usize) {
    let mut path = [0u8; 4096];
    let Ok(length) = rt.arg(i, &mut path) else {
        buffered::fail(rt, b"argument", &Error::from_raw_os_error(TOO_LONG));
        return;
    };
    show(rt, &path[..length]);
}

fn main(rt: HostRuntime) {
    for i in 1..buffered::arg_count(rt) {
        show_argument(rt, i);
    }
}
