// Answers a fixed list of calls, chosen so that every handler, code and refusal is among them. The answers that are
// stored beside it are those of the Rust original, or, where the two part, those that docs/DIFFERENCES.md gives.
#![tactic(auto)]

use std::io;

fn main(rt: HostRuntime) -> io::Result<()> {
    test_bench::desk::run(&rt)
}
