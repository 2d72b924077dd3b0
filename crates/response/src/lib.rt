// Answers that every handler gives: the error, and the test of a range of handles.
#![tactic(auto)]

pub mod inner;
pub mod range;
