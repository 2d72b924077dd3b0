// Every request, handed to its handler.
#![tactic(auto)]

pub mod inner;
