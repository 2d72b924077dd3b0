// The two reads by type: the first wanted entry fixes the length, then a row for each from it on, written through the
// cursor. A row is written only once it is known to stay. A group's end is looked for once, not for each of its rows.
ghost use Rattle.std.specs.Prelude.{◌≡◌, true, [], ◌++◌, ◌+◌, ◌-◌, ◌≤◌, ◌<◌, length, get_or, take, drop};
ghost use Rattle.std.specs.Option.{unwrap_or};
ghost use Rattle.wire.specs.Cursor.{Wrote};
ghost use Rattle.attribute.specs.Record.{entry_of};
ghost use Rattle.attribute.specs.Lookup.{entries_of, group_end_at};
ghost use Rattle.attribute_walk.specs.Walk.{short_of, is_of_type, InGroup};
ghost use Rattle.model.specs.View.{seen_all};
ghost use Rattle.model.specs.Run.{Rowed, Listed};
ghost use Rattle.model.specs.Rows.{extra_of, lead, any_entry};
ghost use Rattle.model.specs.Answer.{Sent, list_rsp};
ghost use Rattle.values.specs.Locate.{side_of, span_bytes};
ghost use Rattle.reading_by_type.specs.Turns.{cut_to, form_of, row_at};

use crate::By;
use attribute::Link;
use attribute_walk::Stretch;
use attribute_walk::group::Group;
use model::{Form, Range};
use values::{ValueSpan, Values};
use wire::att::AttError;
use wire::cursor::WriteCursor;
use wire::sizes::Record;

// How many bytes stand before a value.
#[tactic(auto, unfolding(model::specs::Rows::extra_of))]
fn extra(form: Form) -> usize
    ensures { (result ≡ extra_of form) × (2 ≤ result) × (result ≤ 4) }
{
    if form.group { 4 } else { 2 }
}

// How much of a value of so many bytes goes into a room.
#[tactic(auto, unfolding(crate::specs::Turns::cut_to))]
fn cut(form: Form, room: usize, len: usize) -> usize
    ensures { result ≡ cut_to form room len }
{
    let e = extra(form);
    let left = if e <= room { room - e } else { 0 };
    len.min(left.min(form.limit))
}

// What stands before the value of the entry at place i: its handle, and the end of its group where the form wants it.
fn put_lead(
    form: Form,
    list: &[Record],
    i: usize,
    end: u16,
    out: &mut [u8],
    c: WriteCursor,
) -> WriteCursor
    requires i_in_bounds { (i < length list.now) × (c.len + extra_of form ≤ length out.old) }
    requires end_value { form.group ≡ true → end ≡ group_end_at list.now i }
    ensures { Wrote out.old out.new c result (lead form (entry_of (get_or list.now i [])) (entries_of (drop (i + 1) list.now))) }
{
    let c = c.word(out, attribute::inner::handle_at(list, i));
    if !form.group {
        return c;
    }
    c.word(out, end)
}

// The row of an entry whose value lies at s: `size` bytes of it, behind its lead.
fn put_value(
    form: Form,
    v: Values,
    s: ValueSpan,
    i: usize,
    end: u16,
    size: usize,
    out: &mut [u8],
    c: WriteCursor,
) -> WriteCursor
    requires i_in_bounds { (i < length v.list.now) × (s.start + s.len ≤ length (side_of v.store.now v.table.now s)) × (size ≤ s.len) }
    requires form_in_bounds { c.len + (size + extra_of form) ≤ length out.old }
    requires end_value { form.group ≡ true → end ≡ group_end_at v.list.now i }
    ensures { Wrote out.old out.new c result (lead form (entry_of (get_or v.entry.list.now i [])) (entries_of (drop (i + 1) v.entry.list.now)) ++ take size (span_bytes v.entry.store.now v.entry.table.now s)) }
{
    let c = put_lead(form, v.list, i, end, out, c);
    values::inner::append_span(c, out, v.store, v.table, s, 0, size)
}

// The row of the entry at place i, where the first value had `size` bytes; `end` is the end of its group where the form
// wants it. Nothing is written where the list ends here.
fn row(
    form: Form,
    v: Values,
    link: Link,
    size: usize,
    i: usize,
    end: u16,
    out: &mut [u8],
    c: WriteCursor,
) -> WriteCursor
    requires i_in_bounds { i < length v.list.now }
    requires len_in_bounds { (c.len ≤ length out.old) × (size ≤ form.limit) × (form.limit < 256) }
    requires end_value { form.group ≡ true → end ≡ group_end_at v.list.now i }
    ensures { Rowed out.old out.new c result (row_at form link v.entry.store.now v.entry.table.now any_entry size (get_or v.entry.list.now i []) (drop (i + 1) v.entry.list.now) (length out.old - c.len)) }
{
    let room = c.available(out);
    if room < size + extra(form) {
        return c;
    }
    let Ok(s) = values::inner::locate_at(v.list, v.table, link, i) else {
        return c;
    };
    if cut(form, room, s.len) != size {
        return c;
    }
    put_value(form, v, s, i, end, size, out, c)
}

// The group of the entry at place i, where the form wants its end: the one before, as long as it reaches that far.
fn next_group(form: Form, list: &[Record], group: Group, i: usize) -> Group
    requires { (i < length list.now) × (form.group ≡ true → InGroup list.now i group) }
    ensures { form.group ≡ true → (i < result.stop) × InGroup list.now i result }
{
    if !form.group {
        return group;
    }
    attribute_walk::group::next_group(list, group, i)
}

// The rows of a stretch: of its entries of the type that is asked for, whose short form has the number `value`, or 0
// where it has none: then a short UUID that has this number is looked at in full too, and no `Option` is tested for each
// entry.
// By hand: why the three list answers have a loop each stands at `finding_by_value::inner::put_found`.
fn put_list(
    form: Form,
    v: Values,
    link: Link,
    p: Stretch,
    value: u16,
    uuid: &[u8],
    size: usize,
    out: &mut [u8],
    c: WriteCursor,
) -> WriteCursor
    requires from_le_to { (p.from ≤ p.to) × (p.to ≤ length v.list.now) × (value ≡ unwrap_or (short_of uuid.now) 0) }
    requires len_in_bounds { (c.len ≤ length out.old) × (size ≤ form.limit) × (form.limit < 256) }
    ensures { Listed (λ want. row_at form link v.entry.store.now v.entry.table.now want size) (is_of_type uuid.now) v.entry.list.now p out.old out.new c result }
{
    let mut c = c;
    let mut group = Group { stop: 0, end: 0 };
    for i in p.from..p.to {
        if attribute_walk::walk::may_be(v.list, i, value)
            && attribute_walk::walk::is_type(v.list, i, uuid)
        {
            group = next_group(form, v.list, group, i);
            let before = c.len;
            c = row(form, v, link, size, i, group.end, out, c);
            if c.len <= before {
                return c;
            }
        }
    }
    c
}

// The form of either; a row's length fits its byte.
#[tactic(auto, unfolding(model::specs::Rows::by_type_form, model::specs::Rows::by_group_form, model::specs::Rows::extra_of))]
fn form_of(by: By) -> Form
    ensures { (result ≡ form_of by) × (result.limit + extra_of result < 256) }
{
    match by {
        By::Attribute => Form {
            group: false,
            op: 0x08,
            rsp: 0x09,
            limit: 253,
        },
        By::Group => Form {
            group: true,
            op: 0x10,
            rsp: 0x11,
            limit: 251,
        },
    }
}

// The answer of either: the first entry in the range that is of the type says how long the values are.
#[tactic(auto, using(crate::proofs::Lists::cut_limit))]
pub fn read_by(by: By, v: Values, link: Link, g: Range, uuid: &[u8], out: &mut [u8]) -> usize
    requires { 6 ≤ length out.old }
    ensures { Sent out.old out.new result (list_rsp (form_of by) g uuid.now (length out.old) (seen_all link v.entry.list.now v.entry.store.now v.entry.table.now)) }
{
    if response::range::is_bad(g) {
        return response::inner::error_response(out, 0x08, g.start, AttError::InvalidHandle);
    }
    let form = form_of(by);
    let short = attribute_walk::walk::short_of(uuid);
    let p = attribute_walk::walk::stretch(v.list, g.start, g.end);
    let Some(first) = attribute_walk::walk::find_type(v.list, p, short, uuid) else {
        return response::inner::error_response(out, form.op, g.start, AttError::AttributeNotFound);
    };
    match values::inner::locate_at(v.list, v.table, link, first) {
        Err(code) => {
            let h = attribute::inner::handle_at(v.list, first);
            response::inner::error_response(out, form.op, h, code)
        }
        Ok(s) => {
            let size = cut(form, out.len() - 2, s.len);
            let c = WriteCursor::new().byte(out, form.rsp);
            let c = c.byte(out, (size + extra(form)) as u8);
            let q = Stretch {
                from: first,
                to: p.to,
            };
            let n = short.unwrap_or(0);
            let c = put_list(form, v, link, q, n, uuid, size, out, c);
            c.len
        }
    }
}
