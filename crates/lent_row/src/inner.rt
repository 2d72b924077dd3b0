// The row by value, for a caller that knows that it has eight slots.
ghost use Rattle.std.specs.Prelude.{◌≡◌, length};
ghost use Rattle.wire.specs.Size.{slot_count};

use peers::Slot;
use wire::sizes::SLOTS;

// The whole row by value, for the tests that look at every slot.
pub fn load(slots: &[Slot]) -> [Slot; SLOTS]
    requires { length slots.now ≡ slot_count }
    ensures { result ≡ slots.now }
{
    <[Slot; SLOTS]>::try_from(slots).unwrap()
}
