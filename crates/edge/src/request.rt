// Requests.
ghost use Rattle.state.specs.State.{lent, waiting};
ghost use Rattle.attribute_server.specs.Request.{query};
ghost use Rattle.numbers.specs.Request.{link_of, request_of};
ghost use Rattle.edge.specs.Served.{Served};

use model::Request;
use numbers::{Reply, RequestNumbers, request};
use peers::Identity;
use state::Prepared;
use wire::sizes::{PreparedBytes, Record, SlotBytes, Table};

// A request answered: the reply, and the link's prepared write after it.
#[derive(Clone, Copy)]
pub struct Serving {
    pub reply: Reply,
    pub next: Prepared,
}

// Answers a request of a peer over a link of some level, into a buffer.
pub fn process(
    list: &mut [Record],
    store: &mut [u8],
    row: &[SlotBytes],
    tables: &mut [Table],
    who: Identity,
    level: u8,
    p: Prepared,
    bytes: &mut PreparedBytes,
    q: RequestNumbers,
    d: &[u8],
    out: &mut [u8],
) -> Serving
    ensures { let s = lent list.old store.old row.now tables.old in
        Served s (waiting p bytes.old) (query who (link_of level) (request_of q) d.now) out.old
        result.reply (lent list.new store.new row.now tables.new)
        (waiting result.next bytes.new) out.new }
{
    let link = request::link(level);
    let rq = Request::from(q);
    let c = attribute_server::request::process(
        list, store, row, tables, who, link, p, bytes, rq, d, out,
    );
    Serving {
        reply: Reply::from(c.answer),
        next: c.prepared,
    }
}
