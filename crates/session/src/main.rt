// Answers the session on standard input, line by line.
#![tactic(auto)]

use std::io;

fn main(rt: HostRuntime) -> io::Result<()> {
    test_bench::desk::run(&rt)
}
