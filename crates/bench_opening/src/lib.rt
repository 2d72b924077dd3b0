// The list and the store that the next hub is opened from, and opening it.
#![tactic(auto)]

pub mod opening;
pub mod pending;
