// Find By Type Value.
#![tactic(auto)]

pub mod inner;
