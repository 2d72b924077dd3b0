// Who is connected: identities, and the row of eight slots, each with a client table beside it.
#![tactic(auto)]

pub mod inner;
pub mod one;
pub mod who;

// A peer: the kind of its address, and the address, low byte first. All zeros is the empty identity, nobody's.
#[repr(C)]
#[derive(Clone, Copy, Debug, Default, PartialEq, Eq)]
pub struct Identity {
    pub kind: u8,
    pub addr: [u8; 6],
}

// A slot: whose it is, and whether that peer is connected, which is any byte but 0.
#[repr(C)]
#[derive(Clone, Copy, Debug, Default, PartialEq, Eq)]
pub struct Slot {
    pub id: Identity,
    pub connected: u8,
}

// A slot of the row, by its place there: no place of a list or of an index is one.
#[derive(Clone, Copy, Debug, PartialEq, Eq)]
pub struct Seat(pub usize);

// What a walk over the row wants: the peer's own slot; its own or an empty one; one that is not connected.
#[derive(Clone, Copy, Debug, PartialEq, Eq)]
pub enum Want {
    Own,
    Usable,
    Free,
}

// What connecting or leaving changes: which slot of the row, what it is then, and whether its table is cleared.
#[derive(Clone, Copy, Debug, PartialEq, Eq)]
pub struct Move {
    pub seat: Seat,
    pub slot: Slot,
    pub clears: bool,
}
