// Values for the application, which no permission holds back, and what a link may do with them.
ghost use Rattle.std.specs.Prelude.{◌≡◌, [], length};
ghost use Rattle.state.specs.State.{lent};
ghost use Rattle.state.specs.Lent.{held};
ghost use Rattle.model.specs.Told.{told_answer, Answered};
ghost use Rattle.attribute_server.specs.Value.{get_told, set_told, set_left, can_told};

use admission::admit;
use attribute::{Link, Wish};
use model::{Answer, CallError};
use peers::{Identity, Want};
use state::Lent;
use wire::sizes::{Record, SlotBytes, Table};

// Copies the value under a handle out: a shared one, or the peer's own.
pub fn get(hub: Lent, who: Identity, handle: u16, out: &mut [u8]) -> Result<Answer, CallError>
    ensures { let s = held hub.entry in
        Answered out.old out.new result (get_told s who handle (length out.old)) }
{
    admit(hub, who)?;
    let slot = peers::inner::first(hub.row, who, Want::Own);
    application::inner::get(hub, slot, handle, out)
}

// Sets the value under a handle: a shared one, or the peer's own.
pub fn set(
    list: &mut [Record],
    store: &mut [u8],
    row: &[SlotBytes],
    tables: &mut [Table],
    who: Identity,
    handle: u16,
    d: &[u8],
) -> Result<Answer, CallError>
    ensures { let s = lent list.old store.old row.now tables.old in
        (told_answer [] result ≡ set_told s who handle (length d.now))
        × (lent list.new store.new row.now tables.new ≡ set_left s who handle d.now) }
{
    admit(
        Lent {
            list,
            store,
            row,
            tables,
        },
        who,
    )?;
    let slot = peers::inner::first(row, who, Want::Own);
    application::inner::set(list, store, tables, slot, handle, d)
}

// Whether a link may do what it wishes with the value under a handle.
pub fn can(
    hub: Lent,
    who: Identity,
    link: Link,
    handle: u16,
    wish: Wish,
) -> Result<Answer, CallError>
    ensures { let s = held hub.entry in
        told_answer [] result ≡ can_told s who wish link handle }
{
    admit(hub, who)?;
    attribute::needs::can(hub.list, link, handle, wish)?;
    Ok(Answer::Done)
}
