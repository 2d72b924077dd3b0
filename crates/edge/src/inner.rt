// Coming and going where the row is lent as slots: the caller has loaded it and walked it, and stores the one slot that
// changes.
ghost use Rattle.std.specs.Prelude.{◌≡◌};
ghost use Rattle.peers.specs.Slots.{walk, slot_of, row_moved};
ghost use Rattle.peers.specs.declared.Want.TheVariants.{Usable, Free};
ghost use Rattle.state.specs.State.{state};
ghost use Rattle.attribute_server.specs.Connection.{moved_by, connect_told, connect_left, disconnect_told, disconnect_left};
ghost use Rattle.numbers.specs.Reply.{reply_to, reply_of};
ghost use Rattle.numbers.specs.Request.{is_set};

use attribute_server::inner::act;
use model::{Answer, CallError};
use numbers::Reply;
use peers::{Identity, Move, Seat, Slot};
use wire::sizes::{Record, SLOTS, Table};

// The reply, and the move of the row that is the caller's to do, if there is one.
#[derive(Clone, Copy)]
pub struct Joined {
    pub reply: Reply,
    pub m: Option<Move>,
}

// What `act` answered as a reply, with the move where that is no error.
fn numbered(a: Result<Answer, CallError>, m: Option<Move>) -> Joined
    ensures { (result.reply ≡ reply_of a) × (result.m ≡ moved_by a m) }
{
    let m = match a {
        Ok(_) => m,
        Err(_) => None,
    };
    Joined {
        reply: Reply::from(a),
        m,
    }
}

// Connects a peer, for which the walks have found these.
pub fn connect(
    list: &[Record],
    store: &[u8],
    row: [Slot; SLOTS],
    tables: &mut [Table],
    who: Identity,
    usable: Option<Seat>,
    free: Option<Seat>,
) -> Joined
    requires { (usable ≡ walk Usable row who) × (free ≡ walk Free row who) }
    ensures { let s = state list.now store.now row tables.old in
        (result.reply ≡ reply_to (connect_told s who))
        × (state list.now store.now (row_moved row result.m) tables.new ≡ connect_left s who) }
{
    let m = peers::inner::join(usable, free, who);
    let bytes = peers::one::encode_row(row);
    let a = act(list, store, &bytes, tables, who, m, Err(CallError::NoSlot));
    numbered(a, m)
}

// A peer leaves, for which the walk has found this.
pub fn disconnect(
    list: &[Record],
    store: &[u8],
    row: [Slot; SLOTS],
    tables: &mut [Table],
    who: Identity,
    bonded: u8,
    own: Option<Seat>,
) -> Joined
    requires { own ≡ slot_of row who }
    ensures { let s = state list.now store.now row tables.old in
        (result.reply ≡ reply_to (disconnect_told s who (is_set bonded)))
        × (state list.now store.now (row_moved row result.m) tables.new ≡ disconnect_left s who (is_set bonded)) }
{
    let keep = bonded != 0;
    let bytes = peers::one::encode_row(row);
    let m = peers::inner::part(&bytes, own, keep);
    let a = act(list, store, &bytes, tables, who, m, Ok(Answer::Done));
    numbered(a, m)
}
