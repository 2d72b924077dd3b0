// The server's calls, over the core forms: list, store, row and tables are lent, the row in bytes; the link's prepared
// write goes in and comes back by value.
//
// A call that only reads takes what is lent as one `Lent`. One that changes something takes the four side by side: of a
// struct with `&mut` fields each call, and each that it calls, would have to promise by a clause on ghost names that
// the same ranges stand in it afterwards, which is no plainer.
//
// Each call refuses first, the lowest number first, and then changes nothing: the crate `admission` has the refusals.
#![tactic(auto)]

pub mod connection;
pub mod inner;
pub mod request;
pub mod subscription;
pub mod table;
pub mod value;
