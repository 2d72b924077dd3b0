// The calls of the application on a hub's values: reading and setting one, what a link may do with it, and who has
// subscribed to it.
#![tactic(auto)]

use application::Bell;
use attribute::Wish;
use bench_memory::memory::Hub;
use bench_memory::{peer, reply};
use lines::words::Call;
use lines::{number, say};
use std::io;

// Copies a value out. No value is over 512 bytes, so that 1,024 stand for any more.
fn get<R: Print>(rt: &R, line: &[u8], hub: Option<&mut Hub>) -> io::Result<()> {
    let words = (
        peer::read(line, 1),
        number::at(line, 2),
        number::at::<usize>(line, 3),
    );
    let (Some(who), Some(handle), Some(size)) = words else {
        return say::no_call(rt);
    };
    let Some(hub) = hub else {
        return say::closed(rt);
    };
    let mut out = [0xEE; 1024];
    let n = size.min(1024);
    let r = edge::value::get(hub.lent(), who, handle, &mut out[..n]);
    reply::tell_value(rt, r, b"val ", &out)
}

fn set<R: Print>(rt: &R, line: &[u8], hub: Option<&mut Hub>) -> io::Result<()> {
    let mut d = [0; 4100];
    let words = (
        peer::read(line, 1),
        number::at(line, 2),
        number::bytes_at(line, 3, &mut d),
    );
    let (Some(who), Some(handle), Some(value)) = words else {
        return say::no_call(rt);
    };
    let Some(hub) = hub else {
        return say::closed(rt);
    };
    let r = edge::value::set(
        &mut hub.stock.list,
        &mut hub.stock.store,
        &hub.row,
        &mut hub.tables,
        who,
        handle,
        value,
    );
    reply::tell_done(rt, r)
}

// Whether a link may do what it wishes with what stands under a handle.
fn can<R: Print>(rt: &R, line: &[u8], hub: Option<&mut Hub>, wish: Wish) -> io::Result<()> {
    let words = (
        peer::read(line, 1),
        peer::level(line, 2),
        number::at(line, 3),
    );
    let (Some(who), Some(level), Some(handle)) = words else {
        return say::no_call(rt);
    };
    let Some(hub) = hub else {
        return say::closed(rt);
    };
    reply::tell_done(rt, edge::value::can(hub.lent(), who, level, handle, wish))
}

// Whether a peer has subscribed to notifications, or to indications.
fn should<R: Print>(rt: &R, line: &[u8], hub: Option<&mut Hub>, bell: Bell) -> io::Result<()> {
    let (Some(who), Some(handle)) = (peer::read(line, 1), number::at(line, 2)) else {
        return say::no_call(rt);
    };
    let Some(hub) = hub else {
        return say::closed(rt);
    };
    reply::tell_whether(
        rt,
        edge::subscription::should(hub.lent(), who, handle, bell),
    )
}

// Answers whether the line was one of these calls. None of them changes a slot or a prepared write.
pub fn answer<R: Print>(
    rt: &R,
    line: &[u8],
    call: Call,
    hub: Option<&mut Hub>,
) -> io::Result<bool> {
    match call {
        (b"get", 3) => get(rt, line, hub)?,
        (b"set", 3) => set(rt, line, hub)?,
        (b"canread", 3) => can(rt, line, hub, Wish::Read)?,
        (b"canwrite", 3) => can(rt, line, hub, Wish::Write)?,
        (b"notify", 2) => should(rt, line, hub, Bell::Notify)?,
        (b"indicate", 2) => should(rt, line, hub, Bell::Indicate)?,
        _ => return Ok(false),
    }
    Ok(true)
}
