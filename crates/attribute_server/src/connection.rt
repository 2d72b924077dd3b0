// Connecting and disconnecting.
ghost use Rattle.std.specs.Prelude.{◌≡◌, []};
ghost use Rattle.state.specs.State.{lent};
ghost use Rattle.model.specs.Told.{told_answer};
ghost use Rattle.attribute_server.specs.Connection.{connect_told, connect_left, disconnect_told, disconnect_left};

use crate::inner;
use model::{Answer, CallError};
use peers::inner::first;
use peers::{Identity, Want};
use wire::sizes::{Record, SlotBytes, Table};

// Connects a peer: it gets its slot, an empty one, or the first that is not connected, cleared.
pub fn connect(
    list: &[Record],
    store: &[u8],
    row: &mut [SlotBytes],
    tables: &mut [Table],
    who: Identity,
) -> Result<Answer, CallError>
    ensures { let s = lent list.now store.now row.old tables.old in
        (told_answer [] result ≡ connect_told s who)
        × (lent list.now store.now row.new tables.new ≡ connect_left s who) }
{
    let usable = first(row, who, Want::Usable);
    let free = first(row, who, Want::Free);
    let m = peers::inner::join(usable, free, who);
    let a = inner::act(list, store, row, tables, who, m, Err(CallError::NoSlot))?;
    if let Some(m) = m {
        peers::inner::put(row, m);
    }
    Ok(a)
}

// Disconnects a peer, which keeps its slot where it is bonded.
pub fn disconnect(
    list: &[Record],
    store: &[u8],
    row: &mut [SlotBytes],
    tables: &mut [Table],
    who: Identity,
    bonded: bool,
) -> Result<Answer, CallError>
    ensures { let s = lent list.now store.now row.old tables.old in
        (told_answer [] result ≡ disconnect_told s who bonded)
        × (lent list.now store.now row.new tables.new ≡ disconnect_left s who bonded) }
{
    let own = first(row, who, Want::Own);
    let m = peers::inner::part(row, own, bonded);
    let a = inner::act(list, store, row, tables, who, m, Ok(Answer::Done))?;
    if let Some(m) = m {
        peers::inner::put(row, m);
    }
    Ok(a)
}
