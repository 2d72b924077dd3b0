// A fresh hub: the row of slots and the tables are lent, and filled.
ghost use Rattle.std.specs.Prelude.{◌≡◌};
ghost use Rattle.state.specs.State.{lent};
ghost use Rattle.state.specs.Fresh.{new_told, new_left};
ghost use Rattle.numbers.specs.Reply.{reply_to};

use numbers::Reply;
use wire::sizes::{Record, SlotBytes, Table};

// Opens a hub.
#[unsafe(no_mangle)]
pub extern "C" fn ropethatch_new(
    row: &mut [SlotBytes],
    list: &[Record],
    store: &[u8],
    tables: &mut [Table],
) -> Reply
    ensures { let s = lent list.now store.now row.old tables.old in
        (result ≡ reply_to (new_told s))
        × (lent list.now store.now row.new tables.new ≡ new_left s) }
{
    edge::opening::new(list, store, row, tables)
}
