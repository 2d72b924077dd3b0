// The eight tables of a row of slots, tested at once against a fresh one.
#![tactic(auto)]

pub mod inner;
