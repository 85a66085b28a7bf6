//! Which closed file may be archived next: all that it has is flushed.
#![tactic(auto)]

mod first;

pub use first::first_to_go;
