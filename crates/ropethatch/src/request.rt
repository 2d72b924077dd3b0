// Requests: the link's prepared write is lent, and updated.
ghost use Rattle.state.specs.State.{lent, waiting};
ghost use Rattle.attribute_server.specs.Request.{query};
ghost use Rattle.numbers.specs.Request.{link_of, request_of};
ghost use Rattle.edge.specs.Served.{Served};

use numbers::{Reply, RequestNumbers};
use peers::Identity;
use state::Prepared;
use wire::sizes::{PreparedBytes, Record, SlotBytes, Table};

// Answers a request of a peer over a link of some level, into a buffer; the link's prepared write is updated.
#[unsafe(no_mangle)]
pub extern "C" fn ropethatch_process(
    row: &[SlotBytes],
    list: &mut [Record],
    store: &mut [u8],
    tables: &mut [Table],
    who: Identity,
    level: u8,
    p: &mut Prepared,
    bytes: &mut PreparedBytes,
    q: RequestNumbers,
    d: &[u8],
    out: &mut [u8],
) -> Reply
    ensures { let s = lent list.old store.old row.now tables.old in
        Served s (waiting p.old bytes.old) (query who (link_of level) (request_of q) d.now) out.old
        result (lent list.new store.new row.now tables.new)
        (waiting p.new bytes.new) out.new }
{
    let was = *p;
    let o = edge::request::process(list, store, row, tables, who, level, was, bytes, q, d, out);
    *p = o.next;
    o.reply
}
