// The server for C and Rust: every public call, in the lent forms. The row of eight slots is lent as one slice of
// records to the calls that walk and change it, connecting and leaving, and as their bytes, which are the same memory,
// to the others; the tables beside it as a slice of arrays; the link's prepared write by reference with its 512 bytes
// beside it. A row of other than eight slots is refused by 1. Each range is a parameter of its own, since a slice in a
// struct can't cross to C.
#![tactic(auto)]

pub mod connection;
pub mod opening;
pub mod request;
pub mod subscription;
pub mod table;
pub mod value;
