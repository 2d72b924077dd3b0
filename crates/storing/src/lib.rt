// Storing a value: into the store and its record, or into the peer's own table.
#![tactic(auto)]

pub mod inner;
