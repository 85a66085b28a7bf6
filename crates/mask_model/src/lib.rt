//! Which puts a reader sees: deletes mask puts, whatever their numbers; a later put of one column and timestamp hides the
//! earlier ones; and of each column the newest few versions are read. Definitions and laws.
#![tactic(auto)]

mod laws;

pub use laws::{compacting_shows_the_same, no_limit, one_pass};
