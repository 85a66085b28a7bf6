//! What a run leaves.

use run_model::Spent;
use script_calls::ReplyLines;
use script_handlers::region_calls::ClosedRegion;

/// What is left once the handlers have returned.
pub enum Served<D> {
    /// The server is closed: its regions in order, the replies of each handler, the first put that found no sequence id left,
    /// and whether a fault ended the log.
    Closed {
        disk: D,
        regions: Vec<ClosedRegion>,
        replies: Vec<ReplyLines>,
        spent: Option<Spent>,
        broken: bool,
    },
    /// No memory was found to start it or to close it.
    Left {
        disk: D,
    },
}
