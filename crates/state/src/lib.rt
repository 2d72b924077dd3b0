// Which lent states are valid, and a fresh hub.
#![tactic(auto)]

pub mod inner;

ghost use Rattle.std.specs.Prelude.{◌≡◌};
ghost use Rattle.state.specs.Lent.{held};
ghost use Rattle.state.specs.State.{lent};
ghost use Rattle.state.specs.Valid.{record_ok, valid, valid_with};
ghost use Rattle.state.specs.Fresh.{told_opened, new_told, new_left};

use wire::sizes::{Record, SLOT_SIZE, SLOTS, SlotBytes, TABLE_SIZE, Table, VALUE_SIZE};

// A link's prepared write: its handle, 0 where there is none; where it starts; and how many bytes of it lie in the data
// beside it.
#[repr(C)]
#[derive(Clone, Copy, Debug, Default, PartialEq, Eq)]
pub struct Prepared {
    pub handle: u16,
    pub offset: u16,
    pub len: u16,
}

// What is lent to a call that only reads it: the attribute list, the store of shared values, the row of slots, and a
// table a slot.
#[derive(Clone, Copy)]
pub struct Lent<'a> {
    pub list: &'a [Record],
    pub store: &'a [u8],
    pub row: &'a [SlotBytes],
    pub tables: &'a [Table],
}

// Why a hub is not opened.
#[derive(Clone, Copy, Debug, PartialEq, Eq)]
pub enum OpenError {
    BadList,
    TooLong,
}

// Whether a prepared write is valid: at most 512 bytes, and none under handle 0.
#[tactic(auto, unfolding(crate::specs::Valid::record_ok, wire::specs::Test::both))]
pub fn is_record(p: Prepared) -> bool
    ensures { result ≡ record_ok p }
{
    usize::from(p.len) <= VALUE_SIZE && (p.handle != 0 || p.len == 0)
}

// Whether what is lent is a valid state.
pub fn is_valid(hub: Lent) -> bool
    ensures { result ≡ valid (held hub.entry) }
{
    let Lent {
        list,
        store,
        row,
        tables,
    } = hub;
    if row.len() != SLOTS || tables.len() != SLOTS || !attribute::rules::is_list(list, store) {
        return false;
    }
    let mut fresh = [0u8; TABLE_SIZE];
    inner::lay_out(list, store, &mut fresh) && inner::slots_ok(row, tables, &fresh)
}

// Whether it is, with a link's prepared write: the whole of a state that a request meets.
#[tactic(auto, unfolding(crate::specs::Valid::valid_with, wire::specs::Test::both))]
pub fn is_valid_with(hub: Lent, p: Prepared) -> bool
    ensures { result ≡ valid_with (held hub.entry) p }
{
    is_record(p) && is_valid(hub)
}

// A fresh hub from a list and a store: eight empty slots, each with the list's fresh table.
pub fn new(
    list: &[Record],
    store: &[u8],
    row: &mut [SlotBytes],
    tables: &mut [Table],
) -> Result<(), OpenError>
    ensures { let s = lent list.now store.now row.old tables.old in
        (told_opened result ≡ new_told s)
        × (lent list.now store.now row.new tables.new ≡ new_left s) }
{
    if row.len() != SLOTS || tables.len() != SLOTS || !attribute::rules::is_list(list, store) {
        return Err(OpenError::BadList);
    }
    let mut fresh = [0u8; TABLE_SIZE];
    if !inner::lay_out(list, store, &mut fresh) {
        return Err(OpenError::TooLong);
    }
    inner::fill(tables, fresh);
    inner::fill(row, [0; SLOT_SIZE]);
    Ok(())
}
