// The sizes of what is lent, said once. A table and its slots are as many on every hub; a value has at most as many
// bytes as a prepared write.
pub const TABLE_SIZE: usize = 640;

pub const RECORD_SIZE: usize = 32;

pub const VALUE_SIZE: usize = 512;

pub const SLOT_SIZE: usize = 8;

pub const SLOTS: usize = 8;

// A client table.
pub type Table = [u8; TABLE_SIZE];

// An entry of the attribute list.
pub type Record = [u8; RECORD_SIZE];

// The bytes of a link's prepared write.
pub type PreparedBytes = [u8; VALUE_SIZE];

// A slot of the row.
pub type SlotBytes = [u8; SLOT_SIZE];
