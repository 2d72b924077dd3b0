// A peer that comes or goes, once the walk over the row has said what that comes to.
ghost use Rattle.std.specs.Prelude.{◌≡◌, true, [], ◌<◌, length};
ghost use Rattle.table_view.specs.Told.{done};
ghost use Rattle.peers.specs.declared.Move.{Move};
ghost use Rattle.state.specs.State.{lent};
ghost use Rattle.model.specs.Told.{told_answer};
ghost use Rattle.admission.specs.Admission.{admission, told_if};
ghost use Rattle.attribute_server.specs.Connection.{if_moved, move_left};

use admission::admit;
use model::{Answer, CallError};
use peers::{Identity, Move};
use state::Lent;
use wire::sizes::{Record, SlotBytes, Table};

// Refuses, or does to the tables what a move asks; `stayed` is the answer where there is no move. The row is the
// caller's to change, where the answer is no error.
pub fn act(
    list: &[Record],
    store: &[u8],
    row: &[SlotBytes],
    tables: &mut [Table],
    who: Identity,
    m: Option<Move>,
    stayed: Result<Answer, CallError>,
) -> Result<Answer, CallError>
    requires { (k : Move) → m ≡ Some k → k.clears ≡ true → k.seat.0 < length row.now }
    ensures { let s = lent list.now store.now row.now tables.old in
        (told_answer [] result ≡ told_if (admission s who) (if_moved m done (told_answer [] stayed)))
        × (tables.new ≡ (move_left s who m).tables) }
{
    admit(
        Lent {
            list,
            store,
            row,
            tables,
        },
        who,
    )?;
    let Some(m) = m else {
        return stayed;
    };
    peers::inner::settle(tables, m);
    Ok(Answer::Done)
}
