//! A session on a server.

use disk_images::Disk;
use handler_threads::ServerName;
use handler_threads::region_calls::{Pass, Server};
use std::alloc::Global;
use std::snapshot::Snapshot;
use std::sync::Wait;

/// A pass, and what its handler needs beside it to call the server.
#[derive(Drop)]
pub struct ServerSession<'a, 'b, D: Disk, N: ServerName, R: Wait> {
    pub(crate) rt: &'a R,
    pub(crate) alloc: Global,
    pub(crate) server: &'a Server<'b, D, N, R>,
    pub(crate) pass: Pass<N>,
    // Of each put's entry, in milliseconds.
    pub(crate) time: u64,
    pub(crate) regions: u32,
    // The number of the last put or flush.
    pub(crate) calls: u32,
    // The pass as it was dealt out, for contracts alone.
    pub(crate) first: Snapshot<Pass<N>>,
}
