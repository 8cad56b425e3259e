// The report of a log: the log on standard input, the report on standard output.
#![tactic(auto)]

fn main(rt: HostRuntime) {
    printer::print_report(rt, &mut rt.stdin());
}
