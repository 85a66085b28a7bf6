//! A region's journal on one thread: edits get their numbers in order, end in any order, and a version is exactly what
//! is visible at the read point. It knows no log, no reader and no lock; who lends it by `&mut` decides the order of calls.
#![tactic(auto)]

mod caller;
mod layers;
mod line;
mod scanner;
mod state;
mod version;

pub use caller::Caller;
pub use line::{Ended, Line, LineOutcome};
pub use scanner::Scanner;
pub use state::RegionState;
pub use version::Version;
