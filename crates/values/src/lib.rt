// Where a value lies, and copying it out: in the peer's own table, or in the store.
#![tactic(auto)]

ghost use Rattle.std.specs.Prelude.{length};
ghost use Rattle.values.specs.Locate.{ReadyToRead};

use wire::sizes::Record;

pub mod inner;

// A value's bytes.
#[derive(Clone, Copy)]
pub struct ValueSpan {
    pub client: bool,
    pub start: usize,
    pub len: usize,
}

// What a peer's values lie in: the list, the store, and the peer's own table. The list is right with the store, and the
// table passes the reading rules.
#[derive(Clone, Copy)]
pub struct Values<'a> {
    pub list: &'a [Record],
    pub store: &'a [u8],
    pub table: &'a [u8],
    pub ghost ready: { ReadyToRead list.now (length store.now) table.now },
}
