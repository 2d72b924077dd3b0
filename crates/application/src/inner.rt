// `slot` is the peer's: the first that matches, connected or not.
//
// By hand: a call that changes something is lent the ranges side by side, for the reason that `storing` gives.
ghost use Rattle.std.specs.Prelude.{◌≡◌, true, [], ◌<◌, length, get_or};
ghost use Rattle.wire.specs.Size.{table_bytes};
ghost use Rattle.table_view.specs.Rules.{accepts};
ghost use Rattle.attribute.specs.Record.{attribute_of};
ghost use Rattle.attribute.specs.Lookup.{place_of};
ghost use Rattle.state.specs.State.{Becomes};
ghost use Rattle.state.specs.Lent.{held};
ghost use Rattle.model.specs.View.{table_at};
ghost use Rattle.model.specs.Told.{told_answer, Answered};
ghost use Rattle.storing.specs.Ready.{SlotReady, ReadyToStore};
ghost use Rattle.application.specs.Calls.{is_wrong_length, fetch_told, store_told, store_left, is_subscribed, table_told, restore_told, restored};

use model::{Answer, CallError};
use peers::Seat;
use state::Lent;
use table_view::{Key, try_from_raw};
use values::Values;
use wire::sizes::{Record, TABLE_SIZE, Table};

// Copies the value under a handle out, as much as the buffer can take.
pub fn get(hub: Lent, slot: Option<Seat>, handle: u16, out: &mut [u8]) -> Result<Answer, CallError>
    requires { ReadyToStore hub.list.now (length hub.store.now) hub.tables.now slot }
    ensures { let s = held hub.entry in
        Answered out.old out.new result (fetch_told s.list s.store (table_at s.tables slot) (place_of s.list handle) (length out.old)) }
{
    let Lent { list, store, .. } = hub;
    let Some(i) = attribute_walk::walk::find_listed(list, handle) else {
        return Err(CallError::NoHandle);
    };
    let table: &[u8] = match slot {
        Some(k) => &hub.tables[k.0],
        None => &[0, 0, 0, 0],
    };
    let n = reading::inner::copy_value(Values { list, store, table }, i, out)?;
    Ok(Answer::Value(n))
}

// Whether so many bytes are another length than a fixed value has.
#[tactic(auto, unfolding(crate::specs::Calls::is_wrong_length))]
fn is_wrong_length(list: &[Record], i: usize, n: usize) -> bool
    requires { i < length list.now }
    ensures { result ≡ is_wrong_length (attribute_of (get_or list.now i [])) n }
{
    let a = attribute::inner::decode(&list[i]);
    !a.variable && n != a.cap as usize
}

// Sets the value under a handle.
pub fn set(
    list: &mut [Record],
    store: &mut [u8],
    tables: &mut [Table],
    slot: Option<Seat>,
    handle: u16,
    d: &[u8],
) -> Result<Answer, CallError>
    requires { ReadyToStore list.old (length store.old) tables.old slot }
    ensures { (told_answer [] result ≡ store_told list.old store.old (table_at tables.old slot) (place_of list.old handle) (length d.now))
        × Becomes (λ s. store_left s slot (place_of list.old handle) d.now) list.old store.old tables.old list.new store.new tables.new }
{
    let Some(i) = attribute_walk::walk::find_listed(list, handle) else {
        return Err(CallError::NoHandle);
    };
    if is_wrong_length(list, i, d.len()) {
        return Err(CallError::WrongLength);
    }
    storing::inner::put_at(list, store, tables, slot, i, 0, d)?;
    Ok(Answer::Done)
}

// Whether a table's value under a handle has two bytes, and the bit in the first.
fn has_bit(table: &[u8], handle: u16, bit: u8) -> bool
    requires { (accepts table.now ≡ true) × (0 < bit) }
    ensures { result ≡ is_subscribed table.now handle bit }
{
    let Some(p) = table_view::inner::find(table, Key(handle)) else {
        return false;
    };
    let v = table_view::inner::value(table, p);
    v.len() == 2 && v[0] / bit % 2 == 1
}

// Whether a peer has subscribed to a value, by the bit of a `Bell`.
pub fn is_subscribed(tables: &[Table], slot: Option<Seat>, handle: u16, bit: u8) -> bool
    requires { SlotReady tables.now slot × (0 < bit) }
    ensures { result ≡ is_subscribed (table_at tables.now slot) handle bit }
{
    let Some(k) = slot else {
        return false;
    };
    has_bit(&tables[k.0], handle, bit)
}

// Copies the peer's table out.
pub fn get_client_att_table(
    tables: &[Table],
    slot: Option<Seat>,
    out: &mut [u8],
) -> Result<Answer, CallError>
    requires { SlotReady tables.now slot × (length out.old ≡ table_bytes) }
    ensures { Answered out.old out.new result (table_told tables.now slot) }
{
    let Some(k) = slot else {
        return Ok(Answer::Nothing);
    };
    wire::inner::copy(out, 0, &tables[k.0]);
    Ok(Answer::Value(TABLE_SIZE))
}

// Puts the values of a saved table into the peer's; without a slot nothing changes.
pub fn set_client_att_table(
    tables: &mut [Table],
    slot: Option<Seat>,
    saved: &[u8],
) -> Result<Answer, CallError>
    requires { SlotReady tables.old slot }
    ensures { (told_answer [] result ≡ restore_told saved.now) × (tables.new ≡ restored tables.old slot saved.now) }
{
    try_from_raw(saved)?;
    let Some(k) = slot else {
        return Ok(Answer::Done);
    };
    client_att_table::inner::set_values(&mut tables[k.0], saved);
    Ok(Answer::Done)
}
