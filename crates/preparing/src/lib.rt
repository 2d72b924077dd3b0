// Prepare Write, and what a request leaves of a link's prepared write.
#![tactic(auto)]

pub mod inner;

use model::{Answer, CallError};
use state::Prepared;

// The link's prepared write after a request, with the answer.
#[derive(Clone, Copy)]
pub struct Changed {
    pub prepared: Prepared,
    pub answer: Result<Answer, CallError>,
}
