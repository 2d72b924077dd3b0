// A fresh hub from the pending list and store.
use bench_memory::memory::{Hub, LINKS, Stock, Waiting};
use bench_memory::reply;
use numbers::Reply;
use std::io;

// Takes the pending entries and bytes over: they have room, since both hold as many.
fn take(stock: &mut Stock, pending: &Stock) {
    stock.list.clear();
    stock.list.try_extend_from_slice(&pending.list).unwrap();
    stock.store.clear();
    stock.store.try_extend_from_slice(&pending.store).unwrap();
}

// Leaves no prepared write on any link. The bytes of one stay, and are part of nothing.
fn forget(links: &mut [Waiting; LINKS]) {
    for w in links.iter_mut() {
        w.prepared = Default::default();
    }
}

// Opens the hub anew where it lies, with no prepared write on any link. Where it is refused it stays as it was.
fn renew(hub: &mut Hub, pending: &Stock) -> Reply {
    let r = edge::opening::new(&pending.list, &pending.store, &mut hub.row, &mut hub.tables);
    if r.status == 0 {
        take(&mut hub.stock, pending);
        forget(&mut hub.waiting);
    }
    r
}

// Opens it from the pending entries and bytes. Where it is refused the former hub stays, or there is none yet.
pub fn open<R: Print>(rt: &R, pending: &Stock, hub: &mut Option<Hub>) -> io::Result<()> {
    let r = match hub {
        Some(former) => renew(former, pending),
        None => {
            let r = renew(hub.insert(Hub::new()), pending);
            if r.status != 0 {
                *hub = None;
            }
            r
        }
    };
    reply::tell_done(rt, r)
}
