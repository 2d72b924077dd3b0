// Answers on standard output.
ghost use Rattle.std.specs.Prelude.{◌≤◌, length};

use std::io;
use wire::sizes::VALUE_SIZE;

pub fn say<R: Print>(rt: &R, s: &[u8]) -> io::Result<()> {
    rt.write_all(s)
}

// A whole line.
pub fn line<R: Print>(rt: &R, s: &[u8]) -> io::Result<()> {
    say(rt, s)?;
    say(rt, b"\n")
}

// A few bytes as hex pairs.
fn pairs<R: Print>(rt: &R, d: &[u8]) -> io::Result<()>
    requires { length d.now ≤ 256 }
{
    let mut line = [0u8; VALUE_SIZE];
    text::inner::hex(&mut line, 0, d);
    say(rt, &line[..2 * d.len()])
}

// Bytes as hex pairs, `-` where there are none.
pub fn hex<R: Print>(rt: &R, d: &[u8]) -> io::Result<()> {
    if d.is_empty() {
        say(rt, b"-")?;
    }
    for part in d.chunks(256) {
        pairs(rt, part)?;
    }
    Ok(())
}

// A word, then bytes, as a line.
pub fn bytes<R: Print>(rt: &R, name: &[u8], d: &[u8]) -> io::Result<()> {
    say(rt, name)?;
    hex(rt, d)?;
    say(rt, b"\n")
}

// A number in capitals, with no zeros in front.
pub fn number<R: Print>(rt: &R, n: u16) -> io::Result<()> {
    print!(rt; "{n:X}")
}

// What is no call, and a call on a hub where none is open.
pub fn no_call<R: Print>(rt: &R) -> io::Result<()> {
    line(rt, b"?")
}

pub fn closed<R: Print>(rt: &R) -> io::Result<()> {
    line(rt, b"closed")
}
