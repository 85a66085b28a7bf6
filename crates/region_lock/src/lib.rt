//! One region of a server: the value of its lock, a handler's pass of it, and its scans, which take no lock.
//!
//! A region's lock keeps its state, its pass of the log's ring, the desks of its handlers' hands, the mark of a flush and the versions that
//! are shown. Its ties: the entries pushed under the pass are those of the journal, in order; what each hand knows of its handler's edits
//! are that handler's lines; and what is shown is a beginning of the journal whose lines are all completed.
#![tactic(auto)]

mod answers;
mod editing;
mod gate;
mod job;
mod locked;
mod marking;
mod naming;
mod pass;
mod scan;
mod show;
mod waiting;
mod whole;

pub use answers::{FlushRefusal, PutRefusal};
pub use editing::Tried;
pub use gate::{FreeGate, Gate};
pub use job::Job;
pub use locked::Locked;
pub use log_service;
pub use naming::LockNaming;
pub use pass::RegionPass;
pub use scan::{ScanReply, point_in, scan_in, view_in};
pub use waiting::wait_logged;
