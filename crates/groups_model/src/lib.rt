//! Several servers, each with a disk of its own: which of them a region's calls go to, and what the report of a run on them
//! tells. Definitions, and the laws that each server's calls and close give it. Begin with specs/Headline.antt.
#![tactic(auto)]

mod laws;

pub use laws::{group_runs_are_runs, one_group_is_a_run};
