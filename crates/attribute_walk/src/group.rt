// Groups: which entries start a service, and where the group of an entry ends.
ghost use Rattle.std.specs.Prelude.{◌≡◌, true, cond, [], ◌∷◌, ◌≤◌, ◌<◌, length, get_or};
ghost use Rattle.wire.specs.Size.{record_bytes};
ghost use Rattle.wire.specs.Uuid.{same_uuid};
ghost use Rattle.attribute.specs.Record.{entry_of};
ghost use Rattle.attribute.specs.Lookup.{is_service};
ghost use Rattle.attribute_walk.specs.Walk.{InGroup};

use attribute::inner::{handle_at, is_short, uuid};
use wire::sizes::Record;

// The entries up to place `stop` belong to one group, which ends at handle `end`.
#[derive(Clone, Copy)]
pub struct Group {
    pub stop: usize,
    pub end: u16,
}

// Whether a short UUID is a service's, primary or secondary: 0x2800 or 0x2801.
#[tactic(auto, using(crate::proofs::Short::no_service, crate::proofs::Short::service_by))]
fn is_short_service(r: &[u8]) -> bool
    requires { (length r.now ≡ record_bytes) × (get_or r.now 11 0 ≡ 2) }
    ensures { result ≡ is_service (entry_of r.now) }
{
    if 1 < r[12] {
        return false;
    }
    r[13] == 0x28
}

// Whether one of any length is, after widening.
fn is_service_uuid(u: &[u8]) -> bool
    ensures { result ≡ cond (same_uuid u.now (0x00 ∷ 0x28 ∷ [])) true (same_uuid u.now (0x01 ∷ 0x28 ∷ [])) }
{
    if wire::uuid::same_uuid(u, &[0x00, 0x28]) {
        return true;
    }
    wire::uuid::same_uuid(u, &[0x01, 0x28])
}

// Whether a record's is.
#[tactic(auto, unfolding(attribute::specs::Lookup::is_service, attribute::specs::Record::entry_of))]
fn is_wide_service(r: &[u8]) -> bool
    requires { length r.now ≡ record_bytes }
    ensures { result ≡ is_service (entry_of r.now) }
{
    is_service_uuid(uuid(r))
}

// Whether an entry starts a service. Most UUIDs are short, and there two bytes decide.
fn is_service(list: &[Record], i: usize) -> bool
    requires { i < length list.now }
    ensures { result ≡ is_service (entry_of (get_or list.now i [])) }
{
    if is_short(&list[i]) {
        return is_short_service(&list[i]);
    }
    is_wide_service(&list[i])
}

// The group of the entry at place i, from there on: it stops at the next service or behind the list, and ends at the
// handle before that.
fn group_at(list: &[Record], i: usize) -> Group
    requires { i < length list.now }
    ensures { (i < result.stop) × (result.stop ≤ length list.now) × InGroup list.now i result }
{
    let mut end = handle_at(list, i);
    for j in i + 1..list.len() {
        if is_service(list, j) {
            return Group { stop: j, end };
        }
        end = handle_at(list, j);
    }
    Group {
        stop: list.len(),
        end,
    }
}

// The group of the entry at place i: the one before, as long as it reaches that far.
pub fn next_group(list: &[Record], group: Group, i: usize) -> Group
    requires { (i < length list.now) × InGroup list.now i group }
    ensures { (i < result.stop) × InGroup list.now i result }
{
    if i < group.stop {
        return group;
    }
    group_at(list, i)
}
