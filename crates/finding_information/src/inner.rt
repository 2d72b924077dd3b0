// Find Information: a row for every entry of the range that fits, written through the cursor. A row is written only
// once it is known to stay.
ghost use Rattle.std.specs.Prelude.{◌≡◌, cond, [], ◌+◌, ◌-◌, ◌≤◌, ◌<◌, length, get_or, drop, eqb};
ghost use Rattle.attribute.specs.Lookup.{entries_of};
ghost use Rattle.attribute_walk.specs.Walk.{Ascends, any_record};
ghost use Rattle.model.specs.Run.{Rowed, Listed};
ghost use Rattle.model.specs.Rows.{any_entry};
ghost use Rattle.model.specs.Answer.{Sent, info_rsp};
ghost use Rattle.finding_information.specs.Turns.{info_at};

use attribute_walk::Stretch;
use model::Range;
use wire::att::AttError;
use wire::cursor::WriteCursor;
use wire::sizes::Record;

// The row of Find Information at place i, where the first UUID had `size` bytes. Nothing is written where the list ends
// here.
fn info_row(list: &[Record], size: usize, i: usize, out: &mut [u8], c: WriteCursor) -> WriteCursor
    requires { (i < length list.now) × (c.len ≤ length out.old) × (size ≤ 32) }
    ensures { Rowed out.old out.new c result (info_at any_entry size (get_or list.now i []) (drop (i + 1) list.now) (length out.old - c.len)) }
{
    let u = attribute::inner::uuid(&list[i]);
    if u.len() != size {
        return c;
    }
    if c.available(out) < size + 2 {
        return c;
    }
    let c = c.word(out, attribute::inner::handle_at(list, i));
    c.append(out, u)
}

// The rows of a stretch.
// By hand: one loop over closures for the three list answers would have to say by `step` what a row leaves in `out`,
// that it may be called again with that, and that an entry without a row does not end the list. That is longer than the
// loop.
fn put_infos(
    list: &[Record],
    p: Stretch,
    size: usize,
    out: &mut [u8],
    mut c: WriteCursor,
) -> WriteCursor
    requires { (p.from ≤ p.to) × (p.to ≤ length list.now) × (c.len ≤ length out.old) × (size ≤ 32) }
    ensures { Listed (λ want. info_at want size) any_record list.now p out.old out.new c result }
{
    for i in p.from..p.to {
        let before = c.len;
        c = info_row(list, size, i, out, c);
        if c.len <= before {
            return c;
        }
    }
    c
}

// 1 for UUIDs of 2 bytes, else 2.
fn format(size: usize) -> u8
    ensures { result ≡ cond (eqb size 2) 1 2 }
{
    if size == 2 { 1 } else { 2 }
}

// Find Information (0x04).
pub fn find_information(list: &[Record], g: Range, out: &mut [u8]) -> usize
    requires { Ascends list.now × (5 ≤ length out.old) }
    ensures { Sent out.old out.new result (info_rsp g (length out.old) (entries_of list.now)) }
{
    if response::range::is_bad(g) {
        return response::inner::error_response(out, 0x08, g.start, AttError::InvalidHandle);
    }
    let p = attribute_walk::walk::stretch(list, g.start, g.end);
    if p.to <= p.from {
        return response::inner::error_response(out, 0x04, g.start, AttError::AttributeNotFound);
    }
    let first = p.from;
    let size = attribute::inner::uuid(&list[first]).len();
    let c = WriteCursor::new().byte(out, 0x05);
    let c = c.byte(out, format(size));
    let c = put_infos(list, p, size, out, c);
    c.len
}
