//! What the report of a run tells of its handlers' writes and what any crash leaves of them: definitions, and the law that a
//! closed server and its handlers' replies give it.
#![tactic(auto)]

mod laws;
mod spent;

pub use laws::first_spent_is_first;
pub use spent::Spent;
