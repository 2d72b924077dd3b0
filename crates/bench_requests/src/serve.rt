// Requests, and whether the last one left the bytes past its response.
ghost use Rattle.std.specs.Prelude.{◌<◌};

use crate::question;
use bench_memory::memory::{Hub, LINKS};
use bench_memory::{peer, reply};
use lines::words::Call;
use lines::{number, say};
use numbers::RequestNumbers;
use peers::Identity;
use std::io;

// Who asks over which link, and how long a buffer is.
#[derive(Clone, Copy)]
struct Asking {
    who: Identity,
    level: u8,
    link: usize,
    size: usize,
    ghost on_link: { link < 16 },
}

fn read_asking(line: &[u8]) -> Option<Asking> {
    let link = number::at(line, 3)?;
    if LINKS <= link {
        return None;
    }
    Some(Asking {
        who: peer::read(line, 1)?,
        level: peer::level(line, 2)?,
        link,
        size: number::at(line, 4)?,
    })
}

// Answers a request, and keeps whether every byte past its response is EE, as it was lent. No buffer over 517 bytes is
// taken, so that 1,024 stand for any more.
fn serve<R: Print>(
    rt: &R,
    hub: &mut Hub,
    a: Asking,
    q: RequestNumbers,
    d: &[u8],
) -> io::Result<()> {
    let waiting = &mut hub.waiting[a.link];
    let mut out = [0xEE; 1024];
    let n = a.size.min(1024);
    let s = edge::request::process(
        &mut hub.stock.list,
        &mut hub.stock.store,
        &hub.row,
        &mut hub.tables,
        a.who,
        a.level,
        waiting.prepared,
        &mut waiting.bytes,
        q,
        d,
        &mut out[..n],
    );
    waiting.prepared = s.next;
    hub.clean = out.iter().skip(s.reply.len).all(|b| *b == 0xEE);
    reply::tell_value(rt, s.reply, b"rsp ", &out)
}

// The request of a line of so many words after its first, if it has one.
fn request<R: Print>(rt: &R, line: &[u8], n: usize, hub: Option<&mut Hub>) -> io::Result<()> {
    let mut d = [0; 4100];
    let (Some(a), Some((q, bytes))) = (read_asking(line), question::read(line, n, &mut d)) else {
        return say::no_call(rt);
    };
    let Some(hub) = hub else {
        return say::closed(rt);
    };
    serve(rt, hub, a, q, bytes)
}

fn tail<R: Print>(rt: &R, hub: Option<&mut Hub>) -> io::Result<()> {
    match hub {
        Some(hub) if hub.clean => say::line(rt, b"clean"),
        Some(_) => say::line(rt, b"dirty"),
        None => say::closed(rt),
    }
}

// Answers whether the line was one of these calls.
pub fn answer<R: Print>(
    rt: &R,
    line: &[u8],
    call: Call,
    hub: Option<&mut Hub>,
) -> io::Result<bool> {
    match call {
        (b"req", n) => request(rt, line, n, hub)?,
        (b"tail", 0) => tail(rt, hub)?,
        _ => return Ok(false),
    }
    Ok(true)
}
