// Where things stand in a client table, the reading rules, and the lookup. Each function asks for as much of the rules
// as it leans on.
ghost use Rattle.std.specs.Prelude.{◌≡◌, true, ◌+◌, ◌*◌, ◌≤◌, ◌<◌, length};
ghost use Rattle.std.specs.Result.{result_ok};
ghost use Rattle.wire.specs.Number.{word};
ghost use Rattle.table_view.specs.Layout.{count_of, values_len, base_of, end_of, key_at, var_at, off_at, next_at, head_at, start_at, cap_at, len_at, value_at};
ghost use Rattle.table_view.specs.Rules.{index_entry_ok, index_ok, value_ok, values_ok, accepts};
ghost use Rattle.table_view.specs.Lookup.{index_place};
ghost use Rattle.table_view.specs.Walk.{ComesTo, StopsAt, stop_of};

use crate::{Key, Place};

// A number of the table. Its bound serves the sums that follow.
pub fn number(t: &[u8], at: usize) -> usize
    requires { at + 1 < length t.now }
    ensures { (result ≡ word t.now at) × (result < 65536) }
{
    wire::inner::get(t, at) as usize
}

// How many entries there are.
pub fn count(t: &[u8]) -> usize
    requires { 4 ≤ length t.now }
    ensures { (result ≡ count_of t.now) × (result < 65536) }
{
    number(t, 0)
}

// Where the values start, and where they end.
pub fn values_base(t: &[u8]) -> usize
    requires { 4 ≤ length t.now }
    ensures { (result ≡ base_of t.now) × (result < 262145) }
{
    4 + 4 * number(t, 0)
}

pub fn values_end(t: &[u8]) -> usize
    requires { 4 ≤ length t.now }
    ensures { (result ≡ end_of t.now) × (result < 327681) }
{
    values_base(t) + number(t, 2)
}

// An entry's key, whether its length varies, and its offset.
pub fn key_at(t: &[u8], p: Place) -> Key
    requires { 8 + 4 * p.0 ≤ length t.now }
    ensures { result.0 ≡ key_at t.now p.0 }
{
    let i = p.0;
    Key(wire::inner::get(t, 4 + 4 * i) % 32768)
}

pub fn is_variable(t: &[u8], p: Place) -> bool
    requires { 8 + 4 * p.0 ≤ length t.now }
    ensures { result ≡ var_at t.now p.0 }
{
    let i = p.0;
    32768 <= wire::inner::get(t, 4 + 4 * i)
}

pub fn offset_at(t: &[u8], p: Place) -> usize
    requires { 8 + 4 * p.0 ≤ length t.now }
    ensures { (result ≡ off_at t.now p.0) × (result < 65536) }
{
    let i = p.0;
    number(t, 6 + 4 * i)
}

// Where the next value starts, counted from the base.
pub fn next_at(t: &[u8], p: Place) -> usize
    requires { (base_of t.now ≤ length t.now) × (p.0 < count_of t.now) }
    ensures { (result ≡ next_at t.now p.0) × (result < 65536) }
{
    let i = p.0;
    if i + 1 < number(t, 0) {
        offset_at(t, Place(i + 1))
    } else {
        number(t, 2)
    }
}

// How many bytes the value's length takes.
fn head_at(t: &[u8], p: Place) -> usize
    requires { 8 + 4 * p.0 ≤ length t.now }
    ensures { (result ≡ head_at t.now p.0) × (result ≤ 2) }
{
    if is_variable(t, p) { 2 } else { 0 }
}

// A value's first byte, how many bytes it can hold, and how many it holds.
pub fn value_start(t: &[u8], p: Place) -> usize
    requires { 8 + 4 * p.0 ≤ length t.now }
    ensures { (result ≡ start_at t.now p.0) × (result < 400000) }
{
    values_base(t) + offset_at(t, p) + head_at(t, p)
}

pub fn capacity(t: &[u8], p: Place) -> usize
    requires { (base_of t.now ≤ length t.now) × (p.0 < count_of t.now) }
    ensures { (result ≡ cap_at t.now p.0) × (result < 65536) }
{
    let from = offset_at(t, p) + head_at(t, p);
    let to = next_at(t, p);
    if from <= to { to - from } else { 0 }
}

// A variable value's length lies in its first two bytes, which the table has to hold.
pub fn value_len(t: &[u8], p: Place) -> usize
    requires t_in_bounds { (base_of t.now ≤ length t.now) × (p.0 < count_of t.now) }
    requires p_in_bounds { start_at t.now p.0 ≤ length t.now }
    ensures { (result ≡ len_at t.now p.0) × (result < 65536) }
{
    if is_variable(t, p) {
        number(t, values_base(t) + offset_at(t, p))
    } else {
        capacity(t, p)
    }
}

// The entry at p of the index, after one with key `last` and offset `from`.
fn entry_ok(t: &[u8], p: Place, last: Key, from: usize) -> bool
    requires { (base_of t.now ≤ length t.now) × (p.0 < count_of t.now) }
    ensures { result ≡ index_entry_ok t.now p.0 last.0 from }
{
    if key_at(t, p).0 <= last.0 {
        return false;
    }
    let off = offset_at(t, p);
    if off < from {
        return false;
    }
    off <= number(t, 2)
}

// The index, entry by entry.
fn index_ok(t: &[u8]) -> bool
    requires { (4 ≤ length t.now) × (base_of t.now ≤ length t.now) }
    ensures { result ≡ index_ok t.now (count_of t.now) 0 0 0 }
{
    let n = number(t, 0);
    let mut last = Key(0);
    let mut from = 0;
    for i in 0..n {
        let p = Place(i);
        if !entry_ok(t, p, last, from) {
            return false;
        }
        last = key_at(t, p);
        from = offset_at(t, p);
    }
    true
}

// The value at p: a variable one has room for its length's two bytes, and for what that length says.
fn value_ok(t: &[u8], p: Place) -> bool
    requires t_in_bounds { (end_of t.now ≤ length t.now) × (p.0 < count_of t.now) }
    requires p_bound { next_at t.now p.0 ≤ values_len t.now }
    ensures { result ≡ value_ok t.now p.0 }
{
    if !is_variable(t, p) {
        return true;
    }
    let next = next_at(t, p);
    let off = offset_at(t, p);
    if next < off + 2 {
        return false;
    }
    number(t, values_base(t) + off) <= next - (off + 2)
}

// The values, one by one, of an index that passed.
pub fn values_ok(t: &[u8]) -> bool
    requires in_bounds { (4 ≤ length t.now) × (end_of t.now ≤ length t.now) }
    requires t_value { index_ok t.now (count_of t.now) 0 0 0 ≡ true }
    ensures { result ≡ values_ok t.now (count_of t.now) 0 }
{
    let n = number(t, 0);
    for i in 0..n {
        if !value_ok(t, Place(i)) {
            return false;
        }
    }
    true
}

// Whether these bytes are a client table.
pub fn is_table(raw: &[u8]) -> bool
    ensures { result ≡ accepts raw.now }
{
    if raw.len() < 4 {
        return false;
    }
    if raw.len() < values_end(raw) {
        return false;
    }
    if !index_ok(raw) {
        return false;
    }
    values_ok(raw)
}

// The straight walk for a key: from a place that it comes to, on to the first key that is not below it, or to the end
// of the index. It answers as a search in a sorted slice does: where the key stands, or would stand.
//
// By hand: it steps before it tests, which costs 9 instructions a key; a `for` over the places costs 12.
pub fn walk_from(t: &[u8], key: Key, from: Place) -> Result<Place, Place>
    requires t_value { accepts t.now ≡ true }
    requires comes_to { ComesTo t.now key.0 from.0 }
    ensures { StopsAt t.now key.0 (stop_of result).0 × (result_ok result ≡ index_place t.now key.0) }
{
    let n = number(t, 0);
    let mut next = from;
    while next.0 < n {
        let p = next;
        let k = key_at(t, p);
        next = Place(p.0 + 1);
        if key.0 <= k.0 {
            return if k == key { Ok(p) } else { Err(p) };
        }
    }
    Err(next)
}

// Where a walk stopped, whether the key stands there or not.
pub fn stop_of(stop: Result<Place, Place>) -> Place
    ensures { result ≡ stop_of stop }
{
    match stop {
        Ok(p) | Err(p) => p,
    }
}

// The place of a key in the index. A key of 0x8000 or more has none: the index holds keys without their flag.
pub fn find(t: &[u8], key: Key) -> Option<Place>
    requires { accepts t.now ≡ true }
    ensures { result ≡ index_place t.now key.0 }
{
    walk_from(t, key, Place(0)).ok()
}

// The value at a place.
pub fn value(t: &[u8], p: Place) -> &[u8]
    requires { (accepts t.now ≡ true) × (p.0 < count_of t.now) }
    ensures { result.now ≡ value_at t.now p.0 }
{
    let from = value_start(t, p);
    let to = from + value_len(t, p);
    &t[from..to]
}
