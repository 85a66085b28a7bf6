//! What each of sixteen threads has. Definitions speak of it, so it is no part of the tests alone.

use append_ring::RingKey;
use log_service::{Item, LogSeat};

/// What a thread has, how many edits it pushed, up to which one a wait called them durable, how often it found the ring full, and how many
/// of its steps were answered as they have to be.
#[derive(Drop)]
pub struct Member {
    pub pass: RingKey<Item>,
    pub seat: LogSeat,
    pub pushed: u64,
    pub durable: u64,
    pub full: u64,
    pub right: u64,
}
