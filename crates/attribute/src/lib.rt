// The attribute list: one record of 32 bytes an entry, lent as a slice of arrays.
//
//  0 handle   2 capacity   4 start of the range   6 present length   (two bytes each, low byte first)
//  8 need for reading   9 need for writing   10 flags: 1 variable, 2 client   11 length of the UUID   12 UUID (16)   28
//  spare (4)
//
// `rules` says which lists are right; the lookups can be called with any. What asks something of its caller stands in
// `inner`.
#![tactic(auto)]

pub mod inner;
pub mod lookup;
pub mod needs;
pub mod rules;

// A list entry, but for its UUID. A client value has no range and no length of its own.
#[derive(Clone, Copy)]
pub struct Attribute {
    pub handle: u16,
    pub cap: u16,
    pub start: u16,
    pub len: u16,
    pub reads: u8,
    pub writes: u8,
    pub variable: bool,
    pub client: bool,
}

// How far a link is trusted. An authenticated one is encrypted too; one that is gone is told so before any need.
#[derive(Clone, Copy, Debug, PartialEq, Eq)]
pub enum Link {
    Plain,
    Encrypted,
    Authenticated,
    Gone,
}

// What a link wants to do with a value.
#[derive(Clone, Copy, Debug, PartialEq, Eq)]
pub enum Wish {
    Read,
    Write,
}
