//! An entry of a log.

ghost use Rattle.std.specs.Prelude.{◌≡◌, ◌≤◌, ◌↔◌, length, IsTrue};
ghost use Rattle.log_model.specs.Entry.{entry_frame};

use crate::bytes::EntryBytes;
use kv_cell::Batch;
use std::marker::Model;

/// The cells that one edit of a region puts, with its number there and its write time in milliseconds.
/// The region is in 1..=64, the number in 1..=2^48-1, the time at most 2^63-1. It keeps the bytes that it was read from, so
/// that a copy of it is written without spelling it again.
#[derive(Debug, Drop)]
pub struct Entry {
    pub region: u32,
    pub number: u64,
    pub time: u64,
    pub batch: Batch,
    pub(crate) bytes: EntryBytes,
}

impl Model for Entry {
    ghost use Rattle.std.specs.Prelude.{◌≡◌};
    ghost use Rattle.log_model.specs.Entry.{Entry as TheEntry, IsEntry, entry_frame};

    ghost Value = { TheEntry };

    ghost view = { λ e. record { region = e.region; number = e.number; time = e.time; batch = e.batch } };

    ghost invariant = { λ e. IsEntry (record { region = e.region; number = e.number; time = e.time; batch = e.batch })
        × (e.bytes ≡ entry_frame (record { region = e.region; number = e.number; time = e.time; batch = e.batch })) };
}

impl Entry {
    /// The bytes that it was read from: its kind, length and body.
    pub fn bytes(&self) -> &EntryBytes
        ensures spelled { result.now ≡ entry_frame self.now }
        ensures within { length result.now ≤ 1048581 }
    {
        &self.bytes
    }

    /// Whether the other entry has the same fields and the same cells in the same order.
    pub fn is_same(&self, other: &Entry) -> bool
        ensures same { IsTrue result ↔ (self.now ≡ other.now) }
    {
        self.region == other.region
            && self.number == other.number
            && self.time == other.time
            && self.batch.is_same(&other.batch)
    }
}
