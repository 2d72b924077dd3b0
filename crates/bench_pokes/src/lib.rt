// The whole state told, and altered with no test.
#![tactic(auto)]

mod dump;
mod poke;

use bench_memory::memory::Hub;
use lines::words::Call;
use std::io;

// Answers whether the line was one of these calls.
pub fn answer<R: Print>(
    rt: &R,
    line: &[u8],
    call: Call,
    hub: Option<&mut Hub>,
) -> io::Result<bool> {
    match call {
        (b"state", 0) => dump::state(rt, hub)?,
        (b"pokeslot", 3) => poke::slot(rt, line, hub)?,
        (b"poketab", 2) => poke::table(rt, line, hub)?,
        (b"pokelen", 2) => poke::length(rt, line, hub)?,
        (b"pokestore", 2) => poke::store(rt, line, hub)?,
        (b"pokerec", 4) => poke::record(rt, line, hub)?,
        _ => return Ok(false),
    }
    Ok(true)
}
