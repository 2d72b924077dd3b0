// The walks along an attribute list: lookups by halves, stretches, types and groups, for the crates above. Every
// function here asks something of its caller: that handles ascend, as a right list's do, or that a place lies in the
// list. Only `walk::short_of` asks nothing.
#![tactic(auto)]

pub mod group;
pub mod walk;

// A stretch of the list: the places from `from` on and before `to`.
#[derive(Clone, Copy)]
pub struct Stretch {
    pub from: usize,
    pub to: usize,
}
