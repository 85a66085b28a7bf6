//! A peer that follows a store's logs while the store works. Over any list of calls of the store's device that didn't break it,
//! and of calls that ship from the recorded position on, what the peer was shipped, with repeats taken out, begins the
//! chronicle after the first position. Begin at `specs/Following.antt`: it names the clauses of these calls.
#![tactic(auto)]

mod following;
mod laws;

pub use following::ship_on;
pub use laws::shipped_begins_the_chronicle;
