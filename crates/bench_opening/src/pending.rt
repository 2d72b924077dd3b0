// The pending list and store: what the next hub is opened from.
use arrayvec::ArrayVec;
use bench_memory::memory::Stock;
use lines::words::Call;
use lines::{number, parts, say, words};
use std::io;
use wire::sizes::{RECORD_SIZE, Record};

// Word k as an entry's flags, if it is a kind: 1 variable, 2 client.
fn flags(line: &[u8], k: usize) -> Option<u8> {
    match words::word(line, k) {
        b"sf" => Some(0),
        b"sv" => Some(1),
        b"cf" => Some(2),
        b"cv" => Some(3),
        _ => None,
    }
}

// An entry's record, where each number of its line is one and fits. A start may be any number: one that no record holds
// lies past every store, as the last one that a record holds does.
fn record(line: &[u8]) -> Option<Record> {
    let mut d = [0; 4100];
    let uuid = number::bytes_at(line, 2, &mut d)?;
    let start = number::at::<u32>(line, 7)?;
    let mut r = [0; RECORD_SIZE];
    wire::inner::set(&mut r, 0, number::at(line, 1)?);
    wire::inner::set(&mut r, 2, number::at(line, 6)?);
    wire::inner::set(&mut r, 4, u16::try_from(start).unwrap_or(u16::MAX));
    wire::inner::set(&mut r, 6, number::at(line, 8)?);
    r[8] = number::at(line, 3)?;
    r[9] = number::at(line, 4)?;
    r[10] = flags(line, 5)?;
    r[11] = u8::try_from(uuid.len()).unwrap_or(u8::MAX);
    parts::put(&mut r, 12, parts::front(uuid, 16));
    Some(r)
}

// One more entry.
fn attr<R: Print>(rt: &R, line: &[u8], pending: &mut Stock) -> io::Result<()> {
    let Some(r) = record(line) else {
        return say::no_call(rt);
    };
    match pending.list.try_push(r) {
        Ok(()) => say::line(rt, b"ok"),
        Err(_) => say::no_call(rt),
    }
}

// The pending store. The bytes are read beside it first, so that a line that is no call leaves it.
fn store<R: Print>(rt: &R, line: &[u8], pending: &mut Stock) -> io::Result<()> {
    let mut d = [0; 4100];
    let Some(bytes) = number::bytes_at(line, 1, &mut d) else {
        return say::no_call(rt);
    };
    let Ok(store) = ArrayVec::try_from(bytes) else {
        return say::no_call(rt);
    };
    pending.store = store;
    say::line(rt, b"ok")
}

fn new<R: Print>(rt: &R, pending: &mut Stock) -> io::Result<()> {
    pending.list.clear();
    pending.store.clear();
    say::line(rt, b"ok")
}

// Answers whether the line was one of these calls.
pub fn answer<R: Print>(rt: &R, line: &[u8], call: Call, pending: &mut Stock) -> io::Result<bool> {
    match call {
        (b"new", 0) => new(rt, pending)?,
        (b"attr", 8) => attr(rt, line, pending)?,
        (b"store", 1) => store(rt, line, pending)?,
        _ => return Ok(false),
    }
    Ok(true)
}
