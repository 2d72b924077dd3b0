// Values for the application, and what a link may do with them.
ghost use Rattle.std.specs.Prelude.{◌≡◌, length};
ghost use Rattle.attribute.specs.declared.Wish.TheVariants.{Read, Write};
ghost use Rattle.state.specs.State.{lent};
ghost use Rattle.attribute_server.specs.Value.{get_told, set_told, set_left, can_told};
ghost use Rattle.numbers.specs.Reply.{reply_to};
ghost use Rattle.numbers.specs.Request.{link_of};
ghost use Rattle.edge.specs.Served.{Delivered};

use attribute::Wish;
use numbers::Reply;
use peers::Identity;
use state::Lent;
use wire::sizes::{Record, SlotBytes, Table};

// Copies the value under a handle out.
#[unsafe(no_mangle)]
pub extern "C" fn ropethatch_get(
    row: &[SlotBytes],
    list: &[Record],
    store: &[u8],
    tables: &[Table],
    who: Identity,
    handle: u16,
    out: &mut [u8],
) -> Reply
    ensures { let s = lent list.now store.now row.now tables.now in
        Delivered out.old out.new result (get_told s who handle (length out.old)) }
{
    let hub = Lent {
        list,
        store,
        row,
        tables,
    };
    edge::value::get(hub, who, handle, out)
}

// Sets the value under a handle.
#[unsafe(no_mangle)]
pub extern "C" fn ropethatch_set(
    row: &[SlotBytes],
    list: &mut [Record],
    store: &mut [u8],
    tables: &mut [Table],
    who: Identity,
    handle: u16,
    d: &[u8],
) -> Reply
    ensures { let s = lent list.old store.old row.now tables.old in
        (result ≡ reply_to (set_told s who handle (length d.now)))
        × (lent list.new store.new row.now tables.new ≡ set_left s who handle d.now) }
{
    edge::value::set(list, store, row, tables, who, handle, d)
}

// Whether a link may read what stands under a handle.
#[unsafe(no_mangle)]
pub extern "C" fn ropethatch_can_read(
    row: &[SlotBytes],
    list: &[Record],
    store: &[u8],
    tables: &[Table],
    who: Identity,
    level: u8,
    handle: u16,
) -> Reply
    ensures { let s = lent list.now store.now row.now tables.now in
        result ≡ reply_to (can_told s who Read (link_of level) handle) }
{
    let hub = Lent {
        list,
        store,
        row,
        tables,
    };
    edge::value::can(hub, who, level, handle, Wish::Read)
}

// Whether it may write there.
#[unsafe(no_mangle)]
pub extern "C" fn ropethatch_can_write(
    row: &[SlotBytes],
    list: &[Record],
    store: &[u8],
    tables: &[Table],
    who: Identity,
    level: u8,
    handle: u16,
) -> Reply
    ensures { let s = lent list.now store.now row.now tables.now in
        result ≡ reply_to (can_told s who Write (link_of level) handle) }
{
    let hub = Lent {
        list,
        store,
        row,
        tables,
    };
    edge::value::can(hub, who, level, handle, Wish::Write)
}
