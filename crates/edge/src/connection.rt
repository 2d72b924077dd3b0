// Tablets that come and go.
ghost use Rattle.std.specs.Prelude.{◌≡◌};
ghost use Rattle.state.specs.State.{lent};
ghost use Rattle.attribute_server.specs.Connection.{connect_told, connect_left, disconnect_told, disconnect_left};
ghost use Rattle.numbers.specs.Reply.{reply_to};
ghost use Rattle.numbers.specs.Request.{is_set};

use numbers::Reply;
use peers::Identity;
use wire::sizes::{Record, SlotBytes, Table};

// Connects a peer.
pub fn connect(
    list: &[Record],
    store: &[u8],
    row: &mut [SlotBytes],
    tables: &mut [Table],
    who: Identity,
) -> Reply
    ensures { let s = lent list.now store.now row.old tables.old in
        (result ≡ reply_to (connect_told s who))
        × (lent list.now store.now row.new tables.new ≡ connect_left s who) }
{
    Reply::from(attribute_server::connection::connect(list, store, row, tables, who))
}

// A peer leaves: bonded by any byte but 0.
pub fn disconnect(
    list: &[Record],
    store: &[u8],
    row: &mut [SlotBytes],
    tables: &mut [Table],
    who: Identity,
    bonded: u8,
) -> Reply
    ensures { let s = lent list.now store.now row.old tables.old in
        (result ≡ reply_to (disconnect_told s who (is_set bonded)))
        × (lent list.now store.now row.new tables.new ≡ disconnect_left s who (is_set bonded)) }
{
    let keep = bonded != 0;
    Reply::from(attribute_server::connection::disconnect(list, store, row, tables, who, keep))
}
