// The board paper of a log: the log on standard input, the paper on standard output. Of a log that is stopped it says
// what the report says of the stop.
#![tactic(auto)]

fn main(rt: HostRuntime) {
    let log = stream::read_log(rt, &mut rt.stdin(), false);
    printer::print_paper(rt, &log);
}
