// Answers, links and requests as plain numbers, as a boundary to C and Rust can carry them.
#![tactic(auto)]

pub mod answer;
pub mod request;

// What a call answers. Status 0: done, or yes. 1: nothing, or no. 2: a value or a response, whose `len` bytes stand at
// the buffer's start. 3: the ATT code `code`. 4: refused, by the number `code`. What a status does not name is 0.
#[repr(C)]
#[derive(Clone, Copy)]
pub struct Reply {
    pub status: u8,
    pub code: u8,
    pub len: usize,
}

// A request: its ATT opcode, and its numbers. `handle` is a handle, or a range's start; `other` a range's end, an
// offset, the flags, or the MTU; `uuid` the type of Find By Type Value.
#[repr(C)]
#[derive(Clone, Copy)]
pub struct RequestNumbers {
    pub op: u8,
    pub handle: u16,
    pub other: u16,
    pub uuid: u16,
}
