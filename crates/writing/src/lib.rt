// Write, Write Command and Execute Write; and any of the four that may change something.
#![tactic(auto)]

pub mod inner;
