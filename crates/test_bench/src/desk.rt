// The lines of a session, one after another, over the memory that the calls share.
use bench_memory::memory::{Hub, Stock};
use bench_opening::{opening, pending};
use lines::input::{Feed, TooLong};
use lines::{parts, say, words};
use std::io;
use wire::sizes::{TABLE_SIZE, Table};

// What the bench remembers from line to line: what the next hub is opened from, the hub that is open, and a builder and
// a table of its own.
#[derive(Drop)]
struct Bench {
    pending: Stock,
    hub: Option<Hub>,
    builder: Table,
    table: Table,
}

impl Bench {
    fn new() -> Bench {
        Bench {
            pending: Stock::new(),
            hub: None,
            builder: [0; TABLE_SIZE],
            table: [0; TABLE_SIZE],
        }
    }
}

// Whether the line was a call: on the bench's own builder and table, on the pending list and store, or on a hub.
fn is_answered<R: Print>(rt: &R, line: &[u8], b: &mut Bench) -> io::Result<bool> {
    let call = words::call(line);
    if let (b"open", 0) = call {
        opening::open(rt, &b.pending, &mut b.hub)?;
        return Ok(true);
    }
    Ok(
        bench_tables::answer(rt, line, call, &mut b.builder, &mut b.table)?
            || pending::answer(rt, line, call, &mut b.pending)?
            || bench_values::answer(rt, line, call, b.hub.as_mut())?
            || bench_peers::answer(rt, line, call, b.hub.as_mut())?
            || bench_pokes::answer(rt, line, call, b.hub.as_mut())?
            || bench_requests::serve::answer(rt, line, call, b.hub.as_mut())?,
    )
}

// Answers a line. An empty one, and a comment, is passed on.
fn answer<R: Print>(rt: &R, line: &[u8], b: &mut Bench) -> io::Result<()> {
    match line {
        [] | [b'#', ..] => say::line(rt, line),
        _ if is_answered(rt, line, b)? => Ok(()),
        _ => say::no_call(rt),
    }
}

// Answers the session on standard input, to its end. Nothing says that it has one, so the loop has a number of turns
// that no run uses up.
pub fn run<R: Input + Print>(rt: &R) -> io::Result<()> {
    let mut feed = Feed::new();
    let mut line = [0; 8200];
    let mut bench = Bench::new();
    for _ in 0..u64::MAX {
        match feed.next(rt, &mut line)? {
            Some(Ok(n)) => answer(rt, parts::front(&line, n), &mut bench)?,
            Some(Err(TooLong)) => say::no_call(rt)?,
            None => break,
        }
    }
    Ok(())
}
