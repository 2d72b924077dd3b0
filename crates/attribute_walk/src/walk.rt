// Lookups and walks where handles ascend: the place of a handle and the places that a range of handles has, by halves,
// and the entries of a type among them. A range is turned into places once, so that no entry's handle is tested; and a
// type into its short form, so that most entries are passed over by one number.
ghost use Rattle.std.specs.Prelude.{◌≡◌, [], ◌+◌, ◌≤◌, ◌<◌, length, get_or, take};
ghost use Rattle.wire.specs.Size.{record_bytes};
ghost use Rattle.wire.specs.Walk.{place_from};
ghost use Rattle.wire.specs.Uuid.{same_uuid};
ghost use Rattle.attribute.specs.Record.{uuid_of};
ghost use Rattle.attribute.specs.Lookup.{place_of};
ghost use Rattle.attribute_walk.specs.Walk.{Ascends, Parts, short_of, may_be, may_match, is_of_type};

use crate::Stretch;
use attribute::inner;
use wire::sizes::Record;

// The first place whose handle is not below one, by halves.
fn place_from(list: &[Record], handle: u16) -> usize
    requires { Ascends list.now }
    ensures { Parts list.now handle result }
{
    list.partition_point(|r| wire::inner::get(r, 0) < handle)
}

// The place of a handle.
#[tactic(auto, using(crate::proofs::Halves::found, crate::proofs::Halves::missing, crate::proofs::Halves::missing_end))]
pub fn find_listed(list: &[Record], handle: u16) -> Option<usize>
    requires { Ascends list.now }
    ensures { result ≡ place_of list.now handle }
{
    let p = place_from(list, handle);
    if p < list.len() {
        if inner::handle_at(list, p) == handle {
            return Some(p);
        }
    }
    None
}

// The first place of a range, which mostly starts with the list.
#[tactic(auto, using(crate::proofs::Halves::parts_first))]
fn first_from(list: &[Record], start: u16) -> usize
    requires { Ascends list.now × (0 < length list.now) }
    ensures { Parts list.now start result }
{
    if start <= inner::handle_at(list, 0) {
        return 0;
    }
    place_from(list, start)
}

// The first place behind a range, which mostly ends with the list.
#[tactic(auto, using(crate::proofs::Halves::parts_last))]
fn first_behind(list: &[Record], end: u16) -> usize
    requires { Ascends list.now × (0 < length list.now) }
    ensures { Parts list.now (end + 1) result }
{
    if inner::handle_at(list, list.len() - 1) <= end {
        return list.len();
    }
    place_from(list, end + 1)
}

// The places whose handles lie in a range.
pub fn stretch(list: &[Record], start: u16, end: u16) -> Stretch
    requires { Ascends list.now }
    ensures { Parts list.now start result.from × Parts list.now (end + 1) result.to }
{
    if list.is_empty() {
        return Stretch { from: 0, to: 0 };
    }
    Stretch {
        from: first_from(list, start),
        to: first_behind(list, end),
    }
}

// The number of a UUID's short form, if it has one. A long one that has none mostly differs in its last byte.
#[tactic(auto, using(crate::proofs::Walks::short_own, crate::proofs::Walks::short_based, crate::proofs::Walks::short_other, crate::proofs::Walks::short_last, crate::proofs::Walks::short_none))]
pub fn short_of(u: &[u8]) -> Option<u16>
    ensures { result ≡ short_of u.now }
{
    if u.len() == 2 {
        return Some(wire::inner::get(u, 0));
    }
    if u.len() == 16 {
        if u[15] == 0 {
            if wire::uuid::same_uuid(&u[12..14], u) {
                return Some(wire::inner::get(u, 12));
            }
        }
    }
    None
}

// Whether an entry may be of a type that has this short form: a long UUID is not looked at.
#[tactic(auto, unfolding(crate::specs::Walk::may_be))]
pub fn may_be(list: &[Record], i: usize, value: u16) -> bool
    requires { i < length list.now }
    ensures { (result ≡ may_be value (get_or list.now i [])) × (length (get_or list.now i []) ≡ record_bytes) }
{
    if !inner::is_short(&list[i]) {
        return true;
    }
    wire::inner::get(&list[i], 12) == value
}

// Whether an entry may be of a type, by the type's short form: where there is none, only a long UUID may be.
#[tactic(auto, unfolding(crate::specs::Walk::may_match))]
fn may_match(list: &[Record], i: usize, short: Option<u16>) -> bool
    requires { i < length list.now }
    ensures { (result ≡ may_match short (get_or list.now i [])) × (length (get_or list.now i []) ≡ record_bytes) }
{
    match short {
        Some(value) => may_be(list, i, value),
        None => !inner::is_short(&list[i]),
    }
}

// Whether two short UUIDs are the same: that of a record, and another.
#[tactic(auto, using(crate::proofs::Short::other_first, crate::proofs::Short::by_second))]
fn same_short(r: &[u8], wanted: &[u8]) -> bool
    requires { (length r.now ≡ record_bytes) × (get_or r.now 11 0 ≡ 2) × (length wanted.now ≡ 2) }
    ensures { result ≡ same_uuid (uuid_of r.now) wanted.now }
{
    if r[12] != wanted[0] {
        return false;
    }
    r[13] == wanted[1]
}

// Whether an entry is of a type.
pub fn is_type(list: &[Record], i: usize, wanted: &[u8]) -> bool
    requires { i < length list.now }
    ensures { result ≡ same_uuid (uuid_of (get_or list.now i [])) wanted.now }
{
    if wanted.len() == 2 {
        if inner::is_short(&list[i]) {
            return same_short(&list[i], wanted);
        }
    }
    wire::uuid::same_uuid(inner::uuid(&list[i]), wanted)
}

// The first place of a stretch whose entry is of a type, with the type's short form, which passes most entries over by
// one comparison.
pub fn find_type(list: &[Record], p: Stretch, short: Option<u16>, uuid: &[u8]) -> Option<usize>
    requires { (p.to ≤ length list.now) × (short ≡ short_of uuid.now) }
    ensures { result ≡ place_from (is_of_type uuid.now) (take p.to list.now) p.from }
{
    for i in p.from..p.to {
        if may_match(list, i, short) {
            if is_type(list, i, uuid) {
                return Some(i);
            }
        }
    }
    None
}
