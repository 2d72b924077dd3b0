// Writes at an offset of a value. The handle comes first, then the link and the need, then the value's own rule, the
// offset before the capacity; an error leaves every byte.
//
// By hand: the list, the store and the tables come side by side. Of a struct with `&mut` fields each call would have to
// promise by a clause on ghost names that the same ranges stand in it afterwards, which is no plainer.
ghost use Rattle.std.specs.Prelude.{◌≡◌, true, false, [], ◌+◌, ◌<◌, length, get_or, ltb};
ghost use Rattle.attribute.specs.Record.{attribute_of};
ghost use Rattle.attribute.specs.Rules.{list_ok};
ghost use Rattle.state.specs.State.{Becomes};
ghost use Rattle.model.specs.Value.{write_rule, write_of, own_write};
ghost use Rattle.model.specs.View.{table_at, seen_all, write_at};
ghost use Rattle.model.specs.Change.{shared_list, shared_store, own_tables, put_at, written};
ghost use Rattle.storing.specs.Ready.{SlotReady, ReadyToStore};

use attribute::needs::may;
use attribute::{Link, Wish};
use peers::Seat;
use table_view::Key;
use wire::att::AttError;
use wire::sizes::{Record, Table};

// Whether n bytes from an offset on end past a capacity.
fn is_past(cap: u16, offset: usize, n: usize) -> bool
    ensures { result ≡ ltb cap (offset + n) }
{
    usize::from(cap) < offset || usize::from(cap) - offset < n
}

// Whether n bytes go in at an offset of a value of `len` bytes that can hold `cap`: the offset comes first.
#[tactic(auto, unfolding(model::specs::Value::write_rule))]
fn rule(len: u16, cap: u16, offset: usize, n: usize) -> Result<(), AttError>
    ensures { result ≡ write_rule len cap offset n }
{
    if usize::from(len) < offset {
        return Err(AttError::InvalidOffset);
    }
    if is_past(cap, offset, n) {
        return Err(AttError::InvalidAttributeValueLength);
    }
    Ok(())
}

// Writes d at an offset of the shared value at place i, and sets the length of a variable one.
fn put_shared(
    list: &mut [Record],
    store: &mut [u8],
    i: usize,
    offset: usize,
    d: &[u8],
) -> Result<(), AttError>
    requires { (i < length list.old) × (list_ok list.old (length store.old) ≡ true) × ((attribute_of (get_or list.old i [])).client ≡ false) }
    ensures { (result ≡ write_rule (attribute_of (get_or list.old i [])).len (attribute_of (get_or list.old i [])).cap offset (length d.now))
        × (list.new ≡ shared_list list.old i (attribute_of (get_or list.old i [])) offset (length d.now))
        × (store.new ≡ shared_store store.old (attribute_of (get_or list.old i [])) offset d.now) }
{
    let a = attribute::inner::decode(&list[i]);
    rule(a.len, a.cap, offset, d.len())?;
    wire::inner::copy(store, a.start as usize + offset, d);
    if a.variable {
        attribute::inner::set_length(list, i, (offset + d.len()) as u16);
    }
    Ok(())
}

// Writes d at an offset of the client value under a handle, in the table of a slot.
fn put_own(
    tables: &mut [Table],
    slot: Option<Seat>,
    handle: u16,
    offset: usize,
    d: &[u8],
) -> Result<(), AttError>
    requires { SlotReady tables.old slot }
    ensures { (result ≡ own_write (table_at tables.old slot) handle offset (length d.now))
        × (tables.new ≡ own_tables tables.old slot handle offset d.now) }
{
    let Some(k) = slot else {
        return Err(AttError::AttributeNotFound);
    };
    client_att_table::inner::write(&mut tables[k.0], Key(handle), offset, d)
}

// Writes d at an offset of the value of the entry at place i, whoever asks. `slot` is the writing peer's.
pub fn put_at(
    list: &mut [Record],
    store: &mut [u8],
    tables: &mut [Table],
    slot: Option<Seat>,
    i: usize,
    offset: usize,
    d: &[u8],
) -> Result<(), AttError>
    requires { (i < length list.old) × ReadyToStore list.old (length store.old) tables.old slot }
    ensures { (result ≡ write_of store.old (table_at tables.old slot) (attribute_of (get_or list.old i [])) offset (length d.now))
        × Becomes (λ s. put_at s slot i offset d.now) list.old store.old tables.old list.new store.new tables.new }
{
    let a = attribute::inner::decode(&list[i]);
    if a.client {
        return put_own(tables, slot, a.handle, offset, d);
    }
    put_shared(list, store, i, offset, d)
}

// Writes d at an offset of the value under a handle, for a link.
pub fn write(
    list: &mut [Record],
    store: &mut [u8],
    tables: &mut [Table],
    slot: Option<Seat>,
    link: Link,
    handle: u16,
    offset: usize,
    d: &[u8],
) -> Result<(), AttError>
    requires { ReadyToStore list.old (length store.old) tables.old slot }
    ensures { (result ≡ write_at handle offset (length d.now) (seen_all link list.old store.old (table_at tables.old slot)))
        × Becomes (λ s. written link s slot handle offset d.now) list.old store.old tables.old list.new store.new tables.new }
{
    let Some(i) = attribute_walk::walk::find_listed(list, handle) else {
        return Err(AttError::AttributeNotFound);
    };
    may(attribute::inner::decode(&list[i]), link, Wish::Write)?;
    put_at(list, store, tables, slot, i, offset, d)
}
