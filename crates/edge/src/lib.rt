// The server's calls in plain numbers, as a boundary to C and Rust can carry them: the crate `numbers` says which.
// The prepared write still goes by value; the crate `ropethatch` lends it. A call that changes something is lent the
// ranges side by side, for the reason that `attribute_server` gives.
#![tactic(auto)]

pub mod connection;
pub mod inner;
pub mod opening;
pub mod request;
pub mod subscription;
pub mod table;
pub mod value;
