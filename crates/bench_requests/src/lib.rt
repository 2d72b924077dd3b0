// The requests of a session: a line read as a request, answered, and what it left past its response.
#![tactic(auto)]

mod question;
pub mod serve;
