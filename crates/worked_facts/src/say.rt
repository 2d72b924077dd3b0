// What the calls on tables answer, as text, in document 01's numbers.
use hub_facts::say::{att, none, ok, refused};
use std::io;
use table_builder::PushError;
use table_view::{NotATable, Span, WriteError};

pub fn say_written<R: Print>(rt: &R, r: Result<(), WriteError>) -> io::Result<()> {
    match r {
        Ok(()) => ok(rt),
        Err(WriteError::NotATable) => refused(rt, 4),
        Err(WriteError::Att(e)) => att(rt, u8::from(e)),
    }
}

pub fn say_pushed<R: Print>(rt: &R, r: Result<(), PushError>) -> io::Result<()> {
    match r {
        Ok(()) => ok(rt),
        Err(PushError::BadBuilder) => refused(rt, 4),
        Err(PushError::BadEntry) => refused(rt, 5),
        Err(PushError::NoRoom) => refused(rt, 6),
    }
}

// The bytes that an answer names.
pub fn say_value<R: Print>(rt: &R, b: &[u8], r: Result<Option<Span>, NotATable>) -> io::Result<()> {
    match r {
        Ok(Some(s)) => lines::say::hex(rt, table_view::part(b, s)),
        Ok(None) => none(rt),
        Err(NotATable) => refused(rt, 4),
    }
}
