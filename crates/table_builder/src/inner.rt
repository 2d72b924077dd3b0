// One entry: whether it may be pushed, and pushing it.
ghost use Rattle.std.specs.Prelude.{◌≡◌, ◌+◌, ◌≤◌, ◌<◌, length};
ghost use Rattle.wire.specs.Size.{table_bytes};
ghost use Rattle.table_view.specs.Layout.{base_of, end_of};
ghost use Rattle.table_builder.specs.Push.{builder, last_key, value_size, flagged, push_plan, with_entry};

use crate::PushError;
use table_view::{Key, Place, inner as view};
use wire::sizes::{TABLE_SIZE, VALUE_SIZE};

// Whether these bytes are a builder's: a table's, with zeros after the index.
#[tactic(auto, unfolding(crate::specs::Push::builder, wire::specs::Test::both))]
pub fn is_builder(b: &[u8]) -> bool
    ensures { result ≡ builder b.now }
{
    if !view::is_table(b) {
        return false;
    }
    let from = view::values_base(b);
    wire::bytes::is_zero(&b[from..])
}

// The last key, or 0.
#[tactic(auto, unfolding(crate::specs::Push::last_key))]
fn last_key(b: &[u8]) -> Key
    requires { (4 ≤ length b.now) × (base_of b.now ≤ length b.now) }
    ensures { result.0 ≡ last_key b.now }
{
    let n = view::count(b);
    if n == 0 {
        return Key(0);
    }
    view::key_at(b, Place(n - 1))
}

// How many bytes a value takes: a variable one's length takes two.
#[tactic(auto, unfolding(crate::specs::Push::value_size))]
pub fn space(n: u16, variable: bool) -> usize
    ensures { (result ≡ value_size n variable) × (result ≤ n + 2) }
{
    if variable { n as usize + 2 } else { n as usize }
}

// A key as it stands in the index, with its flag.
#[tactic(auto, unfolding(crate::specs::Push::flagged))]
fn with_flag(key: Key, variable: bool) -> u16
    requires { key.0 < 32768 }
    ensures { result ≡ flagged key.0 variable }
{
    if variable { key.0 + 32768 } else { key.0 }
}

// Whether a push adds its entry, or why not.
#[tactic(auto, unfolding(crate::specs::Push::push_plan, crate::specs::Push::entry_fits, wire::specs::Test::both))]
pub fn judge(b: &[u8], key: Key, n: u16, variable: bool) -> Result<(), PushError>
    ensures { result ≡ push_plan b.now key.0 n variable }
{
    if !is_builder(b) {
        return Err(PushError::BadBuilder);
    }
    if VALUE_SIZE < n as usize {
        return Err(PushError::BadEntry);
    }
    if 32767 < key.0 {
        return Err(PushError::BadEntry);
    }
    if key.0 <= last_key(b).0 {
        return Err(PushError::BadEntry);
    }
    if TABLE_SIZE < view::values_end(b) + 4 + space(n, variable) {
        return Err(PushError::NoRoom);
    }
    Ok(())
}

// The header's two numbers moved, and the entry after the last.
#[tactic(auto, unfolding(crate::specs::Push::with_entry))]
pub fn add(b: &mut [u8], key: Key, n: u16, variable: bool)
    requires in_bounds { (4 ≤ length b.old) × (end_of b.old + 4 + value_size n variable ≤ table_bytes) }
    requires table_bytes_in_bounds { (table_bytes ≤ length b.old) × (key.0 < 32768) }
    ensures { b.new ≡ with_entry b.old key.0 n variable }
{
    let count = view::count(b);
    let values = view::number(b, 2);
    let at = view::values_base(b);
    let size = space(n, variable);
    let k = with_flag(key, variable);
    wire::inner::set(b, 0, (count + 1) as u16);
    wire::inner::set(b, 2, (values + size) as u16);
    wire::inner::set(b, at, k);
    wire::inner::set(b, at + 2, values as u16);
}
