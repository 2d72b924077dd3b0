// Values for the application, and what a link may do with them.
ghost use Rattle.std.specs.Prelude.{◌≡◌, length};
ghost use Rattle.state.specs.State.{lent};
ghost use Rattle.state.specs.Lent.{held};
ghost use Rattle.attribute_server.specs.Value.{get_told, set_told, set_left, can_told};
ghost use Rattle.numbers.specs.Reply.{reply_to};
ghost use Rattle.numbers.specs.Request.{link_of};
ghost use Rattle.edge.specs.Served.{Delivered};

use attribute::Wish;
use numbers::{Reply, request};
use peers::Identity;
use state::Lent;
use wire::sizes::{Record, SlotBytes, Table};

// Copies the value under a handle out: a shared one, or the peer's own.
pub fn get(hub: Lent, who: Identity, handle: u16, out: &mut [u8]) -> Reply
    ensures { let s = held hub.entry in
        Delivered out.old out.new result (get_told s who handle (length out.old)) }
{
    Reply::from(attribute_server::value::get(hub, who, handle, out))
}

// Sets the value under a handle: a shared one, or the peer's own.
pub fn set(
    list: &mut [Record],
    store: &mut [u8],
    row: &[SlotBytes],
    tables: &mut [Table],
    who: Identity,
    handle: u16,
    d: &[u8],
) -> Reply
    ensures { let s = lent list.old store.old row.now tables.old in
        (result ≡ reply_to (set_told s who handle (length d.now)))
        × (lent list.new store.new row.now tables.new ≡ set_left s who handle d.now) }
{
    Reply::from(attribute_server::value::set(list, store, row, tables, who, handle, d))
}

// Whether a link may do what it wishes with what stands under a handle.
pub fn can(hub: Lent, who: Identity, level: u8, handle: u16, wish: Wish) -> Reply
    ensures { let s = held hub.entry in
        result ≡ reply_to (can_told s who wish (link_of level) handle) }
{
    let link = request::link(level);
    Reply::from(attribute_server::value::can(hub, who, link, handle, wish))
}
