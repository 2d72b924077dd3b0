// One slot: as the eight bytes in which it is lent, and what it answers to a walk.
ghost use Rattle.std.specs.Prelude.{◌≡◌, List, map, refl};
ghost use Rattle.std.proofs.lemmas.List.{map-id};
ghost use Rattle.peers.specs.declared.Slot.{Slot};
ghost use Rattle.peers.specs.declared.Want.TheVariants.{Usable};
ghost use Rattle.peers.specs.Bytes.{slot_in, row_of, bytes_of};
ghost use Rattle.peers.specs.Slots.{wanted, left};

use crate::who::{is_empty, same};
use crate::{Identity, Slot, Want};
use wire::sizes::{SLOTS, SlotBytes};

// The slot that eight bytes are.
impl From<&SlotBytes> for Slot {
    ghost from_gives = { λ e s. s ≡ slot_in e.now };

    fn from(e: &SlotBytes) -> Slot {
        let [kind, a0, a1, a2, a3, a4, a5, connected] = *e;
        let addr = [a0, a1, a2, a3, a4, a5];
        let id = Identity { kind, addr };
        Slot { id, connected }
    }
}

// And back.
impl From<Slot> for SlotBytes {
    ghost from_gives = { λ s e. (e ≡ bytes_of s) × (slot_in e ≡ s) };

    fn from(s: Slot) -> SlotBytes {
        let [a0, a1, a2, a3, a4, a5] = s.id.addr;
        [s.id.kind, a0, a1, a2, a3, a4, a5, s.connected]
    }
}

// The same of a whole row.
pub fn encode_row(row: [Slot; SLOTS]) -> [SlotBytes; SLOTS]
    ensures { row_of result ≡ row }
{
    // The closure says what it promises: of a `From` called in one, the check infers nothing.
    row.map(
        |s| -> SlotBytes
            ensures { slot_in result ≡ s }
        { SlotBytes::from(s) },
    )
}

// In what a row is lent: each of its elements is a slot, and all of them are a row of slots.
pub trait AsSlot: Sized {
    ghost slot: { Self → Slot };

    ghost slots: { List Self → List Slot };

    fn as_slot(&self) -> Slot
        ensures { result ≡ slot self.now };

    ghost each: { (es : List Self) → map slot es ≡ slots es };
}

impl AsSlot for Slot {
    ghost slot = { λ s. s };

    ghost slots = { λ ss. ss };

    ghost each = { map-id };

    fn as_slot(&self) -> Slot {
        *self
    }
}

impl AsSlot for SlotBytes {
    ghost slot = { slot_in };

    ghost slots = { row_of };

    ghost each = { λ es. refl };

    fn as_slot(&self) -> Slot {
        Slot::from(self)
    }
}

// Whether a slot matches or is empty.
#[tactic(auto, unfolding(crate::specs::Slots::wanted, crate::specs::Slots::matches))]
fn is_usable(s: Slot, who: Identity) -> bool
    ensures { result ≡ wanted Usable who s }
{
    same(s.id, who) || is_empty(s.id)
}

// Whether a walk stops at a slot.
#[tactic(auto, unfolding(crate::specs::Slots::wanted, crate::specs::Slots::matches))]
pub fn is_wanted(s: Slot, who: Identity, want: Want) -> bool
    ensures { result ≡ wanted want who s }
{
    match want {
        Want::Own => same(s.id, who),
        Want::Usable => is_usable(s, who),
        Want::Free => s.connected == 0,
    }
}

// The slot that a peer leaves: not connected, and where it is unbonded nobody's.
#[tactic(auto, unfolding(crate::specs::Slots::left))]
pub fn leave(s: Slot, bonded: bool) -> Slot
    ensures { result ≡ left bonded s }
{
    let id = if bonded { s.id } else { Identity::default() };
    Slot { id, connected: 0 }
}
