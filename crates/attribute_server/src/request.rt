// Requests over a link.
ghost use Rattle.std.specs.Prelude.{◌≡◌};
ghost use Rattle.peers.specs.Bytes.{row_of};
ghost use Rattle.peers.specs.Slots.{slot_of};
ghost use Rattle.state.specs.State.{lent, waiting};
ghost use Rattle.requests.specs.Slot.{given_slot};
ghost use Rattle.attribute_server.specs.Request.{query, Processed};

use admission::request::admit_request;
use attribute::Link;
use model::Request;
use peers::{Identity, Seat, Want};
use preparing::Changed;
use preparing::inner::with_record;
use state::{Lent, Prepared};
use wire::sizes::{PreparedBytes, Record, SlotBytes, Table};

// The peer's slot, where the request needs it: most that only discover do not.
fn slot_for(row: &[SlotBytes], who: Identity, rq: Request) -> Option<Seat>
    ensures { result ≡ given_slot rq (slot_of (row_of row.now) who) }
{
    if !requests::inner::needs_slot(rq) {
        return None;
    }
    peers::inner::first(row, who, Want::Own)
}

// Answers a request of a peer over its link: d are the bytes that it brings, `bytes` those of the link's prepared
// write, `out` is for the response.
pub fn process(
    list: &mut [Record],
    store: &mut [u8],
    row: &[SlotBytes],
    tables: &mut [Table],
    who: Identity,
    link: Link,
    p: Prepared,
    bytes: &mut PreparedBytes,
    rq: Request,
    d: &[u8],
    out: &mut [u8],
) -> Changed
    ensures { let s = lent list.old store.old row.now tables.old in
        Processed s
        (waiting p bytes.old) (query who link rq d.now) out.old
        result.answer (lent list.new store.new row.now tables.new)
        (waiting result.prepared bytes.new) out.new }
{
    let hub = Lent {
        list,
        store,
        row,
        tables,
    };
    let (n, room) = (d.len(), out.len());
    if let Err(e) = admit_request(hub, who, p, rq, n, room) {
        return with_record(p, Err(e));
    }
    let slot = slot_for(row, who, rq);
    requests::inner::answer(list, store, tables, slot, link, p, bytes, rq, d, out)
}
