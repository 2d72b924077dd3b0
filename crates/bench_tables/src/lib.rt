// The calls on a builder and a client table by themselves, and on saved tables.
#![tactic(auto)]

use bench_memory::reply;
use lines::words::Call;
use lines::{number, parts, say};
use std::io;
use table_builder::PushError;
use table_printer::TEXT_SIZE;
use table_view::{Key, NotATable, WriteError};
use wire::sizes::{TABLE_SIZE, Table};

fn tell<R: Print>(rt: &R, r: Result<(), NotATable>) -> io::Result<()> {
    tell_written(rt, r.map_err(WriteError::from))
}

fn tell_written<R: Print>(rt: &R, r: Result<(), WriteError>) -> io::Result<()> {
    match r {
        Ok(()) => say::line(rt, b"ok"),
        Err(WriteError::NotATable) => reply::refused(rt, 4),
        Err(WriteError::Att(e)) => reply::code(rt, u8::from(e)),
    }
}

fn tell_pushed<R: Print>(rt: &R, r: Result<(), PushError>) -> io::Result<()> {
    match r {
        Ok(()) => say::line(rt, b"ok"),
        Err(PushError::BadBuilder) => reply::refused(rt, 4),
        Err(PushError::BadEntry) => reply::refused(rt, 5),
        Err(PushError::NoRoom) => reply::refused(rt, 6),
    }
}

// The line's bytes in place of these, with zeros after them.
fn load<R: Print>(rt: &R, line: &[u8], t: &mut Table) -> io::Result<()> {
    let mut fresh = [0; TABLE_SIZE];
    if number::bytes_at(line, 1, &mut fresh).is_none() {
        return say::no_call(rt);
    }
    *t = fresh;
    say::line(rt, b"ok")
}

fn memory<R: Print>(rt: &R, t: &[u8]) -> io::Result<()> {
    say::bytes(rt, b"mem ", parts::trimmed(t))
}

// Word k of a line as a bit.
fn bit(line: &[u8], k: usize) -> Option<bool> {
    match number::at(line, k)? {
        0u32 => Some(false),
        1 => Some(true),
        _ => None,
    }
}

fn push<R: Print>(rt: &R, line: &[u8], builder: &mut Table) -> io::Result<()> {
    let words = (number::at(line, 1), number::at(line, 2), bit(line, 3));
    let (Some(key), Some(len), Some(variable)) = words else {
        return say::no_call(rt);
    };
    tell_pushed(rt, table_builder::push(builder, Key(key), len, variable))
}

fn new<R: Print>(rt: &R, builder: &mut Table) -> io::Result<()> {
    *builder = table_builder::new();
    say::line(rt, b"ok")
}

fn write<R: Print>(rt: &R, line: &[u8], table: &mut Table) -> io::Result<()> {
    let mut d = [0; 4100];
    let words = (
        number::at(line, 1),
        number::at(line, 2),
        number::bytes_at(line, 3, &mut d),
    );
    let (Some(key), Some(offset), Some(value)) = words else {
        return say::no_call(rt);
    };
    tell_written(rt, client_att_table::write(table, Key(key), offset, value))
}

fn get<R: Print>(rt: &R, line: &[u8], table: &[u8]) -> io::Result<()> {
    let Some(key) = number::at(line, 1) else {
        return say::no_call(rt);
    };
    reply::tell_part(rt, b"val ", table, table_view::get(table, Key(key)))
}

fn set_values<R: Print>(rt: &R, line: &[u8], table: &mut Table) -> io::Result<()> {
    let mut d = [0; 4100];
    let Some(saved) = number::bytes_at(line, 1, &mut d) else {
        return say::no_call(rt);
    };
    tell(rt, client_att_table::set_values(table, saved))
}

// A saved table of its own: its bytes, and its lines.
fn read<R: Print>(rt: &R, line: &[u8]) -> io::Result<()> {
    let mut d = [0; 4100];
    let Some(saved) = number::bytes_at(line, 1, &mut d) else {
        return say::no_call(rt);
    };
    reply::tell_table(rt, saved)
}

fn print<R: Print>(rt: &R, line: &[u8]) -> io::Result<()> {
    let mut d = [0; 4100];
    let Some(saved) = number::bytes_at(line, 1, &mut d) else {
        return say::no_call(rt);
    };
    let mut text = [0; TEXT_SIZE];
    let n = table_printer::write_lines(saved, &mut text);
    say::say(rt, parts::front(&text, n))
}

// Answers whether the line was one of these calls: on the builder, on the table, on a saved one.
pub fn answer<R: Print>(
    rt: &R,
    line: &[u8],
    call: Call,
    builder: &mut Table,
    table: &mut Table,
) -> io::Result<bool> {
    match call {
        (b"bnew", 0) => new(rt, builder)?,
        (b"bload", 1) => load(rt, line, builder)?,
        (b"bpush", 3) => push(rt, line, builder)?,
        (b"bbuild", 0) => tell(rt, table_builder::build(builder, table))?,
        (b"bmem", 0) => memory(rt, builder)?,
        (b"tload", 1) => load(rt, line, table)?,
        (b"twrite", 3) => write(rt, line, table)?,
        (b"tsetv", 1) => set_values(rt, line, table)?,
        (b"tclear", 0) => tell(rt, client_att_table::clear(table))?,
        (b"tget", 1) => get(rt, line, table)?,
        (b"traw", 0) => reply::tell_table(rt, table)?,
        (b"tmem", 0) => memory(rt, table)?,
        (b"tread", 1) => read(rt, line)?,
        (b"tprint", 1) => print(rt, line)?,
        _ => return Ok(false),
    }
    Ok(true)
}
