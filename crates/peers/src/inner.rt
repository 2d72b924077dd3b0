// The row of slots, lent in bytes: the one walk over it, what connecting and leaving come to, and what that changes.
ghost use Rattle.std.specs.Prelude.{◌≡◌, true, ◌<◌, length};
ghost use Rattle.wire.specs.Size.{slot_count};
ghost use Rattle.peers.specs.Bytes.{row_of};
ghost use Rattle.peers.specs.Slots.{walk, sought_seat, slot_sought, Inside, joined, parted, row_moved, tables_moved, Tables};

use crate::one::AsSlot;
use crate::{Identity, Move, Seat, Slot, Want, one};
use wire::sizes::{SlotBytes, Table};

// The first slot that is wanted, of a row that is lent in slots or in their bytes, and what it tells.
pub fn first<S: AsSlot>(row: &[S], who: Identity, want: Want) -> Option<Seat>
    ensures found { result ≡ walk want (S.slots row.now) who }
    ensures told { sought_seat result ≡ slot_sought want (S.slots row.now) who }
{
    for (i, e) in row.iter().enumerate() {
        if one::is_wanted(e.as_slot(), who, want) {
            return Some(Seat(i));
        }
    }
    None
}

// Connecting, by what the two walks found: none where there is no slot to have.
pub fn join(usable: Option<Seat>, free: Option<Seat>, who: Identity) -> Option<Move>
    ensures { result ≡ joined who usable free }
{
    let slot = Slot {
        id: who,
        connected: 1,
    };
    let (seat, clears) = match (usable, free) {
        (Some(k), _) => (k, false),
        (None, Some(k)) => (k, true),
        (None, None) => return None,
    };
    Some(Move { seat, slot, clears })
}

// Leaving, by the slot that the walk found, if it found one.
pub fn part(row: &[SlotBytes], own: Option<Seat>, bonded: bool) -> Option<Move>
    requires { Inside own (length row.now) }
    ensures { result ≡ parted (row_of row.now) bonded own }
{
    let seat = own?;
    let s = Slot::from(&row[seat.0]);
    Some(Move {
        seat,
        slot: one::leave(s, bonded),
        clears: !bonded,
    })
}

// Clears the table of a move that clears it. Every other table stays.
pub fn settle(tables: &mut [Table], m: Move)
    requires { Tables tables.old × (m.clears ≡ true → m.seat.0 < slot_count) }
    ensures { tables.new ≡ tables_moved tables.old (Some m) }
{
    if m.clears {
        client_att_table::inner::clear(&mut tables[m.seat.0]);
    }
}

// Puts the slot of a move at its place. Every other slot stays.
pub fn put(row: &mut [SlotBytes], m: Move)
    ensures { row_of row.new ≡ row_moved (row_of row.old) (Some m) }
{
    if m.seat.0 < row.len() {
        row[m.seat.0] = SlotBytes::from(m.slot);
    }
}
