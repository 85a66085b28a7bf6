//! What a script leaves that was run on several stores.

use groups_run::group_servers::{GroupList, GroupsWhy};
use groups_run::region_calls::ClosedRegion;
use run_model::Spent;
use script_calls::ReplyLines;

/// What is left of a script that was run on several stores.
pub enum GroupsRan<D> {
    /// The handlers have returned and the servers are closed: the regions in order, each as its own group's server had it, the replies of each
    /// handler, the first put that found no sequence id left, and whether a fault ended a group's log.
    Closed {
        disks: GroupList<D>,
        regions: Vec<ClosedRegion>,
        replies: Vec<ReplyLines>,
        spent: Option<Spent>,
        broken: bool,
    },
    /// No memory was found to start them or to close them.
    Left {
        disks: GroupList<D>,
    },
    /// The stores could not be opened: why, and of the disk of which number it is told.
    NotOpened {
        why: GroupsWhy,
        disk: u32,
        disks: GroupList<D>,
    },
}
