// Tablets that come and go: the row of slots is lent, walked, and the one slot that changes is stored.
ghost use Rattle.std.specs.Prelude.{◌≡◌};
ghost use Rattle.peers.specs.Slots.{row_moved};
ghost use Rattle.state.specs.State.{state};
ghost use Rattle.attribute_server.specs.Connection.{connect_told, connect_left, disconnect_told, disconnect_left};
ghost use Rattle.numbers.specs.Reply.{reply_to};
ghost use Rattle.numbers.specs.Request.{is_set};

use lent_row::inner::load;
use numbers::Reply;
use numbers::answer::refused;
use peers::inner::first;
use peers::{Identity, Move, Slot, Want};
use wire::sizes::{Record, SLOTS, Table};

// Puts the slot of a move at its place, if there is one. Every other slot stays.
fn put(slots: &mut [Slot], m: Option<Move>)
    ensures { slots.new ≡ row_moved slots.old m }
{
    if let Some(m) = m {
        if m.seat.0 < slots.len() {
            slots[m.seat.0] = m.slot;
        }
    }
}

// Connects a peer.
#[unsafe(no_mangle)]
pub extern "C" fn ropethatch_connect(
    slots: &mut [Slot],
    list: &[Record],
    store: &[u8],
    tables: &mut [Table],
    who: Identity,
) -> Reply
    ensures { let s = state list.now store.now slots.old tables.old in
        (result ≡ reply_to (connect_told s who))
        × (state list.now store.now slots.new tables.new ≡ connect_left s who) }
{
    if slots.len() != SLOTS {
        return refused(1);
    }
    let usable = first(slots, who, Want::Usable);
    let free = first(slots, who, Want::Free);
    let o = edge::inner::connect(list, store, load(slots), tables, who, usable, free);
    put(slots, o.m);
    o.reply
}

// A peer leaves: bonded by any byte but 0.
#[unsafe(no_mangle)]
pub extern "C" fn ropethatch_disconnect(
    slots: &mut [Slot],
    list: &[Record],
    store: &[u8],
    tables: &mut [Table],
    who: Identity,
    bonded: u8,
) -> Reply
    ensures { let s = state list.now store.now slots.old tables.old in
        (result ≡ reply_to (disconnect_told s who (is_set bonded)))
        × (state list.now store.now slots.new tables.new ≡ disconnect_left s who (is_set bonded)) }
{
    if slots.len() != SLOTS {
        return refused(1);
    }
    let own = first(slots, who, Want::Own);
    let o = edge::inner::disconnect(list, store, load(slots), tables, who, bonded, own);
    put(slots, o.m);
    o.reply
}
