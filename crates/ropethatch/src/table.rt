// A peer's table, for keeping and giving back.
ghost use Rattle.std.specs.Prelude.{◌≡◌};
ghost use Rattle.table_view.specs.Read.{raw_told};
ghost use Rattle.state.specs.State.{lent};
ghost use Rattle.attribute_server.specs.Table.{fetched_told, restored_told, restored_left};
ghost use Rattle.numbers.specs.Reply.{reply_to};
ghost use Rattle.edge.specs.Served.{Delivered};

use numbers::Reply;
use peers::Identity;
use state::Lent;
use wire::sizes::{Record, SlotBytes, Table};

// Copies the table of the peer's slot out.
#[unsafe(no_mangle)]
pub extern "C" fn ropethatch_get_client_att_table(
    row: &[SlotBytes],
    list: &[Record],
    store: &[u8],
    tables: &[Table],
    who: Identity,
    out: &mut Table,
) -> Reply
    ensures { let s = lent list.now store.now row.now tables.now in
        Delivered out.old out.new result (fetched_told s who) }
{
    let hub = Lent {
        list,
        store,
        row,
        tables,
    };
    edge::table::get_client_att_table(hub, who, out)
}

// Puts a saved table's values into the peer's slot.
#[unsafe(no_mangle)]
pub extern "C" fn ropethatch_set_client_att_table(
    row: &[SlotBytes],
    list: &[Record],
    store: &[u8],
    tables: &mut [Table],
    who: Identity,
    saved: &[u8],
) -> Reply
    ensures { let s = lent list.now store.now row.now tables.old in
        (result ≡ reply_to (restored_told s who saved.now))
        × (lent list.now store.now row.now tables.new ≡ restored_left s who saved.now) }
{
    edge::table::set_client_att_table(list, store, row, tables, who, saved)
}

// How many of these bytes are the saved table: it stands at their start, and what follows is not the table's.
#[unsafe(no_mangle)]
pub extern "C" fn ropethatch_saved_length(saved: &[u8]) -> Reply
    ensures { result ≡ reply_to (raw_told saved.now) }
{
    edge::table::saved_length(saved)
}
