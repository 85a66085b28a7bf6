//! An edit that is ready to be begun.

use kv_cell::Batch;
use log_trucks::Truck;
use mem_segments::Draft;
use region_state::Caller;
use std::alloc::Global;
use std::sync::Arc;

/// An edit with all its memory: its batch, the draft of its cells, and a truck with its bytes under some number and the marks of its cells'
/// families. The time is in milliseconds.
#[derive(Drop)]
pub struct Job {
    pub caller: Caller,
    pub time: u64,
    pub batch: Arc<Batch, Global>,
    pub draft: Draft,
    pub truck: Box<Truck>,
}
