//! What a run on several servers leaves.

use group_calls::group_servers::GroupList;
use group_calls::region_calls::ClosedRegion;
use run_model::Spent;
use script_calls::ReplyLines;

/// What is left once the handlers have returned.
pub enum GroupsServed<D> {
    /// The servers are closed: the regions in order, each as its own group's server had it, the replies of each handler, the first put that found no
    /// sequence id left, and whether a fault ended a group's log.
    Closed {
        disks: GroupList<D>,
        regions: Vec<ClosedRegion>,
        replies: Vec<ReplyLines>,
        spent: Option<Spent>,
        broken: bool,
    },
    /// No memory was found to start or to close them.
    Left {
        disks: GroupList<D>,
    },
}
