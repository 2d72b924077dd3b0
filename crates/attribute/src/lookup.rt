// The lookup of a handle in any list. Where handles ascend, `attribute_walk` has it by halves.
ghost use Rattle.std.specs.Prelude.{◌≡◌};
ghost use Rattle.wire.specs.Walk.{sought_found};
ghost use Rattle.attribute.specs.Lookup.{handle_sought};

use wire::sizes::Record;

// The place of a handle.
pub fn find_handle(list: &[Record], handle: u16) -> Option<usize>
    ensures { sought_found result ≡ handle_sought list.now handle }
{
    list.iter().position(|r| wire::inner::get(r, 0) == handle)
}
