// Bytes and numbers as text.
#![tactic(auto)]

pub mod inner;
