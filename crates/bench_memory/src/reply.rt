// The server's replies as lines.
use lines::{parts, say};
use numbers::Reply;
use std::io;
use table_view::{NotATable, Span};

pub fn code<R: Print>(rt: &R, c: u8) -> io::Result<()> {
    say::bytes(rt, b"att ", &[c])
}

pub fn refused<R: Print>(rt: &R, n: u8) -> io::Result<()> {
    say::say(rt, b"refused ")?;
    say::number(rt, u16::from(n))?;
    say::say(rt, b"\n")
}

// A reply that carries no value, with the words for done and for nothing.
fn tell<R: Print>(rt: &R, r: Reply, done: &[u8], nothing: &[u8]) -> io::Result<()> {
    match r.status {
        0 => say::line(rt, done),
        1 => say::line(rt, nothing),
        3 => code(rt, r.code),
        _ => refused(rt, r.code),
    }
}

// Of a call that does something, and of one that asks whether.
pub fn tell_done<R: Print>(rt: &R, r: Reply) -> io::Result<()> {
    tell(rt, r, b"ok", b"none")
}

pub fn tell_whether<R: Print>(rt: &R, r: Reply) -> io::Result<()> {
    tell(rt, r, b"yes", b"no")
}

// A reply that may carry a value, which stands at the buffer's start.
pub fn tell_value<R: Print>(rt: &R, r: Reply, name: &[u8], out: &[u8; 1024]) -> io::Result<()> {
    if r.status != 2 {
        return tell_done(rt, r);
    }
    say::bytes(rt, name, parts::front(out, r.len))
}

// The bytes of a table that an answer names.
pub fn tell_part<R: Print>(
    rt: &R,
    name: &[u8],
    b: &[u8],
    r: Result<Option<Span>, NotATable>,
) -> io::Result<()> {
    match r {
        Ok(Some(s)) => say::bytes(rt, name, table_view::part(b, s)),
        Ok(None) => say::line(rt, b"none"),
        Err(NotATable) => refused(rt, 4),
    }
}

// A table up to its values' end.
pub fn tell_table<R: Print>(rt: &R, table: &[u8]) -> io::Result<()> {
    tell_part(rt, b"table ", table, table_view::raw(table).map(Some))
}
