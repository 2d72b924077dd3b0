// The calls of peers that come and go, and on the tables that are kept for them.
#![tactic(auto)]

use bench_memory::memory::Hub;
use bench_memory::{peer, reply};
use lines::words::Call;
use lines::{number, say};
use std::io;
use wire::sizes::TABLE_SIZE;

fn connect<R: Print>(rt: &R, line: &[u8], hub: Option<&mut Hub>) -> io::Result<()> {
    let Some(who) = peer::read(line, 1) else {
        return say::no_call(rt);
    };
    let Some(hub) = hub else {
        return say::closed(rt);
    };
    let r = edge::connection::connect(
        &hub.stock.list,
        &hub.stock.store,
        &mut hub.row,
        &mut hub.tables,
        who,
    );
    reply::tell_done(rt, r)
}

fn disconnect<R: Print>(rt: &R, line: &[u8], hub: Option<&mut Hub>) -> io::Result<()> {
    let (Some(who), Some(bonded @ 0..=1)) = (peer::read(line, 1), number::at(line, 2)) else {
        return say::no_call(rt);
    };
    let Some(hub) = hub else {
        return say::closed(rt);
    };
    let r = edge::connection::disconnect(
        &hub.stock.list,
        &hub.stock.store,
        &mut hub.row,
        &mut hub.tables,
        who,
        bonded,
    );
    reply::tell_done(rt, r)
}

// The peer's whole table is handed out; what is said of it ends with its values.
fn get_table<R: Print>(rt: &R, line: &[u8], hub: Option<&mut Hub>) -> io::Result<()> {
    let Some(who) = peer::read(line, 1) else {
        return say::no_call(rt);
    };
    let Some(hub) = hub else {
        return say::closed(rt);
    };
    let mut out = [0xEE; TABLE_SIZE];
    let r = edge::table::get_client_att_table(hub.lent(), who, &mut out);
    if r.status == 2 {
        reply::tell_table(rt, &out)
    } else {
        reply::tell_done(rt, r)
    }
}

fn set_table<R: Print>(rt: &R, line: &[u8], hub: Option<&mut Hub>) -> io::Result<()> {
    let mut d = [0; 4100];
    let (Some(who), Some(saved)) = (peer::read(line, 1), number::bytes_at(line, 2, &mut d)) else {
        return say::no_call(rt);
    };
    let Some(hub) = hub else {
        return say::closed(rt);
    };
    let r = edge::table::set_client_att_table(
        &hub.stock.list,
        &hub.stock.store,
        &hub.row,
        &mut hub.tables,
        who,
        saved,
    );
    reply::tell_done(rt, r)
}

// Answers whether the line was one of these calls. None of them changes the list, the store or a prepared write.
pub fn answer<R: Print>(
    rt: &R,
    line: &[u8],
    call: Call,
    hub: Option<&mut Hub>,
) -> io::Result<bool> {
    match call {
        (b"connect", 1) => connect(rt, line, hub)?,
        (b"disconnect", 2) => disconnect(rt, line, hub)?,
        (b"gettab", 1) => get_table(rt, line, hub)?,
        (b"settab", 2) => set_table(rt, line, hub)?,
        _ => return Ok(false),
    }
    Ok(true)
}
