// An entry by its place, for callers that know that there is one.
ghost use Rattle.std.specs.Prelude.{◌≡◌, [], ◌<◌, length, get_or, set, eqb};
ghost use Rattle.wire.specs.Size.{record_bytes};
ghost use Rattle.attribute.specs.Record.{attribute_of, uuid_of, with_length};
ghost use Rattle.attribute.specs.Lookup.{handle_of};

use crate::Attribute;
use wire::sizes::Record;

// The record's fields.
#[tactic(auto, unfolding(crate::specs::Record::attribute_of))]
pub fn decode(r: &Record) -> Attribute
    ensures { result ≡ attribute_of r.now }
{
    let flags = r[10];
    Attribute {
        handle: wire::inner::get(r, 0),
        cap: wire::inner::get(r, 2),
        start: wire::inner::get(r, 4),
        len: wire::inner::get(r, 6),
        reads: r[8],
        writes: r[9],
        variable: flags % 2 == 1,
        client: flags / 2 % 2 == 1,
    }
}

// The record's UUID, of as many bytes as it says and has.
pub fn uuid(r: &[u8]) -> &[u8]
    requires { length r.now ≡ record_bytes }
    ensures { result.now ≡ uuid_of r.now }
{
    let to = (12 + r[11] as usize).min(32);
    &r[12..to]
}

// An entry's handle.
pub fn handle_at(list: &[Record], i: usize) -> u16
    requires { i < length list.now }
    ensures { result ≡ handle_of (get_or list.now i []) }
{
    wire::inner::get(&list[i], 0)
}

// Sets the present length of the entry at place i. Every other byte of the list stays.
#[tactic(auto, unfolding(crate::specs::Record::with_length))]
pub fn set_length(list: &mut [Record], i: usize, n: u16)
    requires { i < length list.old }
    ensures { list.new ≡ set list.old i (with_length (get_or list.old i []) n) }
{
    wire::inner::set(&mut list[i], 6, n);
}

// Whether a record's UUID is a short one.
pub fn is_short(r: &[u8]) -> bool
    requires { length r.now ≡ record_bytes }
    ensures { result ≡ eqb (get_or r.now 11 0) 2 }
{
    r[11] == 2
}
