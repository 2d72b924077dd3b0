// What the groups of the test bench's calls share: what is remembered from line to line, who is named in a line, and
// how a reply is told.
#![tactic(auto)]

pub mod memory;
pub mod peer;
pub mod reply;
#[cfg(test)]
mod tests;
