//! What a closed server hands on.

use crate::helpers::Helpers;
use crate::naming::ServerNaming;
use crate::passes::Passes;
use crate::server::Server;
use disk_images::Disk;
use mem_segments::Base;
use region_state::Line;
use std::sync::Wait;

/// A region with its journal, and the words of the log for it: up to which sequence id it is durable, up to which it is in store files,
/// and up to which it is in logs that were ended.
#[derive(Drop)]
pub struct ClosedRegion {
    pub region: u32,
    pub base: Base,
    pub lines: Vec<Line>,
    pub synced: u64,
    pub stored: u64,
    pub closed: u64,
}

/// The disk, the regions in order, and whether a fault ended the log.
pub struct ClosedServer<D> {
    pub disk: D,
    pub regions: Vec<ClosedRegion>,
    pub broken: bool,
}

/// A server that no memory was found to close. All is handed back.
pub struct CloseRefusal<
    'a,
    D: Disk,
    N: ServerNaming
        + pass_calls::region_lock::LockNaming
        + pass_calls::log_service::ServiceNaming
        + region_versions::VersionsNaming,
    R: Wait,
> {
    pub server: Server<'a, D, N, R>,
    pub passes: Passes<N>,
    pub helpers: Helpers,
}
