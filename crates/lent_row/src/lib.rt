// The row of slots, lent as one slice of records: the whole of it by value. The walk over it where it lies is that of
// `peers`, and what connecting and leaving do stands above.
#![tactic(auto)]

pub mod inner;
