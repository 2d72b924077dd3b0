// A fresh hub.
ghost use Rattle.std.specs.Prelude.{◌≡◌};
ghost use Rattle.state.specs.State.{lent};
ghost use Rattle.state.specs.Fresh.{new_told, new_left};
ghost use Rattle.numbers.specs.Reply.{reply_to};

use numbers::Reply;
use numbers::answer::refused;
use state::OpenError;
use wire::sizes::{Record, SlotBytes, Table};

// Lays the list's fresh table into each of the eight tables, and empties the slots.
pub fn new(list: &[Record], store: &[u8], row: &mut [SlotBytes], tables: &mut [Table]) -> Reply
    ensures { let s = lent list.now store.now row.old tables.old in
        (result ≡ reply_to (new_told s))
        × (lent list.now store.now row.new tables.new ≡ new_left s) }
{
    match state::new(list, store, row, tables) {
        Ok(()) => Reply {
            status: 0,
            code: 0,
            len: 0,
        },
        Err(OpenError::BadList) => refused(1),
        Err(OpenError::TooLong) => refused(6),
    }
}
