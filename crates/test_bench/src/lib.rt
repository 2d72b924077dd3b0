// The test bench: reads a session on standard input, a call a line, and answers each on standard output.
// No input makes it stop: what is no call is answered `?`.
#![tactic(auto)]

pub mod desk;
