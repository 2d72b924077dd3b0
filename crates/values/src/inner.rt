// The lookup of a value: the handle, the link and the need, the peer's own table, in this order. Readers copy from the
// span that it answers, and look nowhere else. A peer without a slot is given the table that has no entries.
ghost use Rattle.std.specs.Prelude.{◌≡◌, true, [], ◌+◌, ◌≤◌, ◌<◌, length, get_or, take, drop};
ghost use Rattle.wire.specs.Cursor.{Wrote};
ghost use Rattle.table_view.specs.Rules.{accepts};
ghost use Rattle.attribute.specs.Record.{attribute_of};
ghost use Rattle.attribute.specs.Lookup.{place_of};
ghost use Rattle.attribute_walk.specs.Walk.{Ascends};
ghost use Rattle.values.specs.Locate.{own_span, value_span, read_span, span_at, side_of, span_bytes};

use crate::ValueSpan;
use attribute::needs::may;
use attribute::{Link, Wish};
use table_view::{Key, inner as view};
use wire::att::AttError;
use wire::cursor::WriteCursor;
use wire::sizes::Record;

// The peer's own value under a handle.
fn locate_own(table: &[u8], handle: u16) -> Result<ValueSpan, AttError>
    requires { accepts table.now ≡ true }
    ensures { result ≡ own_span table.now handle }
{
    let Some(p) = view::find(table, Key(handle)) else {
        return Err(AttError::AttributeNotFound);
    };
    Ok(ValueSpan {
        client: true,
        start: view::value_start(table, p),
        len: view::value_len(table, p),
    })
}

// The value of the entry at place i, whoever asks.
pub fn locate_value(list: &[Record], table: &[u8], i: usize) -> Result<ValueSpan, AttError>
    requires { (i < length list.now) × (accepts table.now ≡ true) }
    ensures { result ≡ value_span table.now (attribute_of (get_or list.now i [])) }
{
    let a = attribute::inner::decode(&list[i]);
    if a.client {
        return locate_own(table, a.handle);
    }
    Ok(ValueSpan {
        client: false,
        start: a.start as usize,
        len: a.len as usize,
    })
}

// The same for a link that wants to read it.
pub fn locate_at(list: &[Record], table: &[u8], link: Link, i: usize) -> Result<ValueSpan, AttError>
    requires { (i < length list.now) × (accepts table.now ≡ true) }
    ensures { result ≡ read_span link table.now (attribute_of (get_or list.now i [])) }
{
    may(attribute::inner::decode(&list[i]), link, Wish::Read)?;
    locate_value(list, table, i)
}

// The same by handle.
pub fn locate(list: &[Record], table: &[u8], link: Link, handle: u16) -> Result<ValueSpan, AttError>
    requires { Ascends list.now × (accepts table.now ≡ true) }
    ensures { result ≡ span_at link list.now table.now (place_of list.now handle) }
{
    let Some(i) = attribute_walk::walk::find_listed(list, handle) else {
        return Err(AttError::AttributeNotFound);
    };
    locate_at(list, table, link, i)
}

// The bytes of a value.
#[tactic(auto, unfolding(crate::specs::Locate::span_bytes))]
fn bytes_of<'a>(store: &'a [u8], table: &'a [u8], s: ValueSpan) -> &'a [u8]
    requires { s.start + s.len ≤ length (side_of store.now table.now s) }
    ensures { (result.now ≡ span_bytes store.now table.now s) × (length result.now ≡ s.len) }
{
    let side = if s.client { table } else { store };
    &side[s.start..s.start + s.len]
}

// Writes n bytes of a value, from an offset on.
pub fn append_span(
    c: WriteCursor,
    out: &mut [u8],
    store: &[u8],
    table: &[u8],
    s: ValueSpan,
    from: usize,
    n: usize,
) -> WriteCursor
    requires n_in_bounds { (c.len + n ≤ length out.old) × (from + n ≤ s.len) }
    requires len_in_bounds { s.start + s.len ≤ length (side_of store.now table.now s) }
    ensures { Wrote out.old out.new c result (take n (drop from (span_bytes store.now table.now s))) }
{
    let bytes = bytes_of(store, table, s);
    c.append(out, &bytes[from..from + n])
}
