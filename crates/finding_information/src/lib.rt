// Find Information.
#![tactic(auto)]

pub mod inner;
