// Answers on standard output, in document 01's numbers.
use lines::{parts, say};
use model::{Answer, CallError};
use std::io;

pub fn ok<R: Print>(rt: &R) -> io::Result<()> {
    say::say(rt, b"ok")
}

pub fn none<R: Print>(rt: &R) -> io::Result<()> {
    say::say(rt, b"none")
}

pub fn refused<R: Print>(rt: &R, n: u64) -> io::Result<()> {
    say::say(rt, b"refused ")?;
    rt.print(n)
}

pub fn att<R: Print>(rt: &R, code: u8) -> io::Result<()> {
    say::say(rt, b"att ")?;
    say::hex(rt, &[code])
}

// An answer of the server: a value or a response is what stands in the buffer.
pub fn say_answer<R: Print>(rt: &R, out: &[u8], a: Result<Answer, CallError>) -> io::Result<()> {
    match a {
        Ok(Answer::Done) => ok(rt),
        Ok(Answer::Nothing) => none(rt),
        Ok(Answer::Value(n)) => say::hex(rt, parts::front(out, n)),
        Err(CallError::BadState) => refused(rt, 1),
        Err(CallError::BadBuffer) => refused(rt, 2),
        Err(CallError::BadPeer) => refused(rt, 3),
        Err(CallError::BadTable) => refused(rt, 4),
        Err(CallError::NoSlot) => refused(rt, 7),
        Err(CallError::NoHandle) => refused(rt, 8),
        Err(CallError::WrongLength) => refused(rt, 9),
        Err(CallError::Att(e)) => att(rt, u8::from(e)),
    }
}
