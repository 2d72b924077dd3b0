// Read, Read Blob, Read Multiple, and the application's own reading of a value.
#![tactic(auto)]

pub mod inner;
