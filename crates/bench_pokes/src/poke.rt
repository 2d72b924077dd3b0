// The lent state altered with no test, to reach states that calls do not.
use bench_memory::memory::{Hub, LINKS, Waiting};
use bench_memory::peer;
use lines::{number, parts, say};
use peers::Slot;
use state::Prepared;
use std::io;
use wire::sizes::{SLOTS, SlotBytes, TABLE_SIZE, VALUE_SIZE};

pub fn slot<R: Print>(rt: &R, line: &[u8], hub: Option<&mut Hub>) -> io::Result<()> {
    let words = (
        number::at(line, 1),
        peer::read(line, 2),
        number::at(line, 3),
    );
    let (Some(place @ 0..SLOTS), Some(id), Some(connected)) = words else {
        return say::no_call(rt);
    };
    let Some(hub) = hub else {
        return say::closed(rt);
    };
    hub.row[place] = SlotBytes::from(Slot { id, connected });
    say::line(rt, b"ok")
}

pub fn table<R: Print>(rt: &R, line: &[u8], hub: Option<&mut Hub>) -> io::Result<()> {
    let mut t = [0; TABLE_SIZE];
    let (Some(place @ 0..SLOTS), Some(_)) = (number::at(line, 1), number::bytes_at(line, 2, &mut t))
    else {
        return say::no_call(rt);
    };
    let Some(hub) = hub else {
        return say::closed(rt);
    };
    hub.tables[place] = t;
    say::line(rt, b"ok")
}

pub fn length<R: Print>(rt: &R, line: &[u8], hub: Option<&mut Hub>) -> io::Result<()> {
    let (Some(handle), Some(len)) = (number::at(line, 1), number::at(line, 2)) else {
        return say::no_call(rt);
    };
    let Some(hub) = hub else {
        return say::closed(rt);
    };
    let Some(i) = attribute::lookup::find_handle(&hub.stock.list, handle) else {
        return say::line(rt, b"none");
    };
    if i < hub.stock.list.len() {
        attribute::inner::set_length(&mut hub.stock.list, i, len);
        say::line(rt, b"ok")?;
    }
    Ok(())
}

// A first word that is no number names no place of the store, as one past its end does: of both it is told last.
pub fn store<R: Print>(rt: &R, line: &[u8], hub: Option<&mut Hub>) -> io::Result<()> {
    let mut d = [0; 4100];
    let Some(bytes) = number::bytes_at(line, 2, &mut d) else {
        return say::no_call(rt);
    };
    let Some(hub) = hub else {
        return say::closed(rt);
    };
    match number::at(line, 1) {
        Some(at) if parts::put(&mut hub.stock.store, at, bytes) => say::line(rt, b"ok"),
        _ => say::no_call(rt),
    }
}

// A prepared write, with zeros after its bytes.
pub fn record<R: Print>(rt: &R, line: &[u8], hub: Option<&mut Hub>) -> io::Result<()> {
    let mut bytes = [0; VALUE_SIZE];
    let len = number::bytes_at(line, 4, &mut bytes).and_then(|d| u16::try_from(d.len()).ok());
    let words = (
        number::at(line, 1),
        number::at(line, 2),
        number::at(line, 3),
        len,
    );
    let (Some(place @ 0..LINKS), Some(handle), Some(offset), Some(len)) = words else {
        return say::no_call(rt);
    };
    let Some(hub) = hub else {
        return say::closed(rt);
    };
    let prepared = Prepared {
        handle,
        offset,
        len,
    };
    hub.waiting[place] = Waiting { prepared, bytes };
    say::line(rt, b"ok")
}
