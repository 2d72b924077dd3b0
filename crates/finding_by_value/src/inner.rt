// Find By Type Value: a row for every entry found that fits, written through the cursor. A row is written only once it
// is known to stay.
// A group's end is looked for once, not for each of its rows.
ghost use Rattle.std.specs.Prelude.{◌≡◌, true, [], ◌+◌, ◌-◌, ◌≤◌, ◌<◌, length, get_or, drop};
ghost use Rattle.std.specs.Option.{unwrap_or};
ghost use Rattle.wire.specs.Test.{both};
ghost use Rattle.attribute.specs.Lookup.{group_end_at};
ghost use Rattle.attribute.specs.Rules.{list_ok};
ghost use Rattle.attribute_walk.specs.Walk.{short_of, is_of_type};
ghost use Rattle.model.specs.Run.{Rowed, Listed};
ghost use Rattle.model.specs.Rows.{holds as holds_value, find_turn};
ghost use Rattle.model.specs.Answer.{Sent, find_rsp};
ghost use Rattle.finding_by_value.specs.Turns.{found_at};

use attribute_walk::Stretch;
use attribute_walk::group::Group;
use model::Range;
use wire::att::AttError;
use wire::cursor::WriteCursor;
use wire::sizes::Record;

// A list and the store that it is right with.
#[derive(Clone, Copy)]
struct Stored<'a> {
    list: &'a [Record],
    store: &'a [u8],
    ghost right: { list_ok list.now (length store.now) ≡ true },
}

// Whether the entry at place i is a shared value that is d as a whole.
fn holds(v: Stored, i: usize, d: &[u8]) -> bool
    requires { i < length v.list.now }
    ensures { result ≡ holds_value v.entry.store.now d.now (get_or v.entry.list.now i []) }
{
    let a = attribute::inner::decode(&v.list[i]);
    if a.client {
        return false;
    }
    let from = a.start as usize;
    let to = from + a.len as usize;
    wire::bytes::same(&v.store[from..to], d)
}

// The row of Find By Type Value at place i; `end` is the end of its group. Nothing is written where there is no room.
fn found_row(list: &[Record], i: usize, end: u16, out: &mut [u8], c: WriteCursor) -> WriteCursor
    requires { (i < length list.now) × (c.len ≤ length out.old) × (end ≡ group_end_at list.now i) }
    ensures { Rowed out.old out.new c result (found_at (get_or list.now i []) (drop (i + 1) list.now) (length out.old - c.len)) }
{
    if c.available(out) < 4 {
        return c;
    }
    let c = c.word(out, attribute::inner::handle_at(list, i));
    c.word(out, end)
}

// Whether the entry at place i is of a type, and its value is d.
#[tactic(auto, unfolding(wire::specs::Test::both))]
fn is_found(v: Stored, i: usize, uuid: &[u8], d: &[u8]) -> bool
    requires { i < length v.list.now }
    ensures { result ≡ both (is_of_type uuid.now (get_or v.entry.list.now i [])) (holds_value v.entry.store.now d.now (get_or v.entry.list.now i [])) }
{
    if !attribute_walk::walk::is_type(v.list, i, uuid) {
        return false;
    }
    holds(v, i, d)
}

// The rows of a stretch: of its entries of the type that is asked for, whose short form has the number `value`, and
// whose value is d.
// By hand: one loop over closures for the three list answers would have to say by `step` what a row leaves in `out` and
// in the group met last, and that it may be called again with that. That is longer than the loop.
fn put_found(
    v: Stored,
    p: Stretch,
    value: u16,
    uuid: &[u8],
    d: &[u8],
    out: &mut [u8],
    mut c: WriteCursor,
) -> WriteCursor
    requires { (p.from ≤ p.to) × (p.to ≤ length v.list.now) × (value ≡ unwrap_or (short_of uuid.now) 0) × (c.len ≤ length out.old) }
    ensures { Listed (λ want. find_turn v.entry.store.now want d.now) (is_of_type uuid.now) v.entry.list.now p out.old out.new c result }
{
    let mut group = Group { stop: 0, end: 0 };
    for i in p.from..p.to {
        if attribute_walk::walk::may_be(v.list, i, value) && is_found(v, i, uuid, d) {
            group = attribute_walk::group::next_group(v.list, group, i);
            let before = c.len;
            c = found_row(v.list, i, group.end, out, c);
            if c.len <= before {
                return c;
            }
        }
    }
    c
}

// Find By Type Value (0x06).
pub fn find_by_type_value(
    list: &[Record],
    store: &[u8],
    g: Range,
    uuid: u16,
    d: &[u8],
    out: &mut [u8],
) -> usize
    requires { (list_ok list.now (length store.now) ≡ true) × (5 ≤ length out.old) }
    ensures { Sent out.old out.new result (find_rsp g uuid d.now (length out.old) list.now store.now) }
{
    if response::range::is_bad(g) {
        return response::inner::error_response(out, 0x08, g.start, AttError::InvalidHandle);
    }
    let c = WriteCursor::new().byte(out, 0x07);
    let p = attribute_walk::walk::stretch(list, g.start, g.end);
    let v = Stored { list, store };
    let c = put_found(v, p, uuid, &uuid.to_le_bytes(), d, out, c);
    if c.len == 1 {
        return response::inner::error_response(out, 0x06, g.start, AttError::AttributeNotFound);
    }
    c.len
}
