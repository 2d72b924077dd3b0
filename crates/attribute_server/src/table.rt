// A peer's whole table, for keeping and for putting back.
ghost use Rattle.std.specs.Prelude.{◌≡◌, []};
ghost use Rattle.state.specs.State.{lent};
ghost use Rattle.state.specs.Lent.{held};
ghost use Rattle.model.specs.Told.{told_answer, Answered};
ghost use Rattle.attribute_server.specs.Table.{fetched_told, restored_told, restored_left};

use admission::admit;
use model::{Answer, CallError};
use peers::{Identity, Want};
use state::Lent;
use wire::sizes::{Record, SlotBytes, Table};

// Copies the table of the peer's slot; `Nothing` for a peer without one.
pub fn get_client_att_table(hub: Lent, who: Identity, out: &mut Table) -> Result<Answer, CallError>
    ensures { let s = held hub.entry in
        Answered out.old out.new result (fetched_told s who) }
{
    admit(hub, who)?;
    let slot = peers::inner::first(hub.row, who, Want::Own);
    application::inner::get_client_att_table(hub.tables, slot, out)
}

// Puts the values of a saved table, of any length, into the peer's; nothing changes for a peer without a slot.
pub fn set_client_att_table(
    list: &[Record],
    store: &[u8],
    row: &[SlotBytes],
    tables: &mut [Table],
    who: Identity,
    saved: &[u8],
) -> Result<Answer, CallError>
    ensures { let s = lent list.now store.now row.now tables.old in
        (told_answer [] result ≡ restored_told s who saved.now)
        × (lent list.now store.now row.now tables.new ≡ restored_left s who saved.now) }
{
    admit(
        Lent {
            list,
            store,
            row,
            tables,
        },
        who,
    )?;
    let slot = peers::inner::first(row, who, Want::Own);
    application::inner::set_client_att_table(tables, slot, saved)
}
