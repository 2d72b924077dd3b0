// What a program that answers lines of text needs: lines read from standard input, their words, hex numbers and bytes
// in them, and answers printed.
#![tactic(auto)]

pub mod input;
pub mod number;
pub mod parts;
pub mod say;
pub mod words;
