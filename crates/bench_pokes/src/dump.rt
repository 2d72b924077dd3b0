// The whole state as lines.
use bench_memory::memory::{Hub, LINKS, Waiting};
use lines::{parts, say};
use state::Prepared;
use std::io;
use wire::sizes::{Record, SLOTS, SlotBytes, Table};

fn entry<R: Print>(rt: &R, r: &Record) -> io::Result<()> {
    let a = attribute::inner::decode(r);
    say::say(rt, b"attr ")?;
    say::number(rt, a.handle)?;
    if a.client {
        say::line(rt, b" client")
    } else {
        say::say(rt, b" ")?;
        say::number(rt, a.len)?;
        say::say(rt, b"\n")
    }
}

fn entries<R: Print>(rt: &R, list: &[Record]) -> io::Result<()> {
    for r in list {
        entry(rt, r)?;
    }
    Ok(())
}

// A number, and a space after it.
fn field<R: Print>(rt: &R, n: u16) -> io::Result<()> {
    say::number(rt, n)?;
    say::say(rt, b" ")
}

// A slot's identity, which is its first seven bytes, whether it is connected, and its table.
fn slot<R: Print>(rt: &R, i: u16, s: &SlotBytes, table: &Table) -> io::Result<()> {
    say::say(rt, b"slot ")?;
    field(rt, i)?;
    say::hex(rt, parts::front(s, 7))?;
    say::say(rt, b" ")?;
    say::number(rt, u16::from(s[7]))?;
    say::bytes(rt, b" ", parts::trimmed(table))
}

fn slots<R: Print>(rt: &R, hub: &Hub) -> io::Result<()> {
    for i in 0..SLOTS {
        slot(rt, i as u16, &hub.row[i], &hub.tables[i])?;
    }
    Ok(())
}

// A prepared write that is not all zero.
fn record<R: Print>(rt: &R, i: u16, w: &Waiting) -> io::Result<()> {
    let p = w.prepared;
    if p == Prepared::default() {
        return Ok(());
    }
    say::say(rt, b"rec ")?;
    field(rt, i)?;
    field(rt, p.handle)?;
    say::number(rt, p.offset)?;
    say::bytes(rt, b" ", parts::front(&w.bytes, usize::from(p.len)))
}

fn records<R: Print>(rt: &R, waiting: &[Waiting; LINKS]) -> io::Result<()> {
    for i in 0..LINKS {
        record(rt, i as u16, &waiting[i])?;
    }
    Ok(())
}

pub fn state<R: Print>(rt: &R, hub: Option<&mut Hub>) -> io::Result<()> {
    let Some(hub) = hub else {
        return say::closed(rt);
    };
    entries(rt, &hub.stock.list)?;
    say::bytes(rt, b"store ", &hub.stock.store)?;
    slots(rt, hub)?;
    records(rt, &hub.waiting)?;
    say::line(rt, b".")
}
