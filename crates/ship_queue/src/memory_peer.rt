//! A peer in memory.

ghost use Rattle.std.specs.Prelude.{◌≡◌, [], ◌∷◌, ◌++◌, OnOk, OnErr};
ghost use Rattle.ship_queue.specs.Kept.{HasKept};
ghost use Rattle.ship_queue.specs.Messages.{placed};

use crate::peer::Peer;
use disk_images::Failed;
use entry_frame::Entry;
use kv_cell::{Batch, NoMemory};
use log_tail::Position;
use std::alloc::Global;
use std::marker::Model;

/// An entry that was shipped, with its file and its place there.
#[derive(Drop)]
pub struct ShippedEntry {
    pub at: Position,
    pub region: u32,
    pub number: u64,
    pub time: u64,
    pub batch: Batch,
}

impl Model for ShippedEntry {
    ghost use Rattle.chronicle_model.specs.Chronicle.{Placed};
    ghost use Rattle.ship_queue.specs.Messages.{placed};

    ghost Value = { Placed };

    ghost view = { λ s. placed s.at (record { region = s.region; number = s.number; time = s.time; batch = s.batch }) };
}

/// Keeps in memory what it is shipped, and the last position that it is to record. A growth that is refused is a failure,
/// after which it has what it had.
#[derive(Drop)]
pub struct MemPeer {
    alloc: Global,
    shipped: Vec<ShippedEntry>,
    recorded: Option<Position>,
    faults: u64,
}

impl MemPeer {
    /// One that has nothing.
    pub fn new(alloc: Global) -> MemPeer
        ensures none { HasKept result [] }
    {
        MemPeer {
            alloc,
            shipped: Vec::new(alloc),
            recorded: None,
            faults: 0,
        }
    }

    /// What it was shipped.
    pub fn shipped(&self) -> &[ShippedEntry]
        ensures { result.now ≡ self.now.shipped.items }
    {
        &self.shipped
    }

    /// The last position that it recorded.
    pub fn recorded(&self) -> Option<Position>
        ensures { result ≡ self.now.recorded }
    {
        self.recorded
    }

    fn keep(&mut self, at: Position, entry: &Entry) -> Result<(), NoMemory>
        ensures kept { OnOk result (self.new.shipped.items ≡ self.old.shipped.items ++ placed at entry.now ∷ []) }
        ensures same { OnErr result (self.new.shipped.items ≡ self.old.shipped.items) }
        ensures others { (self.new.recorded ≡ self.old.recorded) × (self.new.faults ≡ self.old.faults) }
    {
        let batch = entry.bytes().to_batch(self.alloc)?;
        self.shipped.push(ShippedEntry {
            at,
            region: entry.region,
            number: entry.number,
            time: entry.time,
            batch,
        })?;
        Ok(())
    }
}

impl Peer for MemPeer {
    ghost use Rattle.ship_queue.specs.Kept.{HasKept};

    ghost has = { HasKept };

    ghost torn = { λ p ms m. HasKept p ms };

    ghost faults = { λ p. p.faults };

    ghost stays = { λ p q. Unit {0} };

    fn ship(&mut self, at: Position, entry: &Entry) -> Result<(), Failed> {
        match self.keep(at, entry) {
            Ok(()) => Ok(()),
            Err(_) => {
                self.faults = self.faults.saturating_add(1);
                Err(Failed)
            }
        }
    }

    fn confirm(&mut self, at: Position) -> Result<(), Failed> {
        self.recorded = Some(at);
        Ok(())
    }

    ghost stays_itself = { λ p. tt };

    ghost stays_on = { λ p q r first second. tt };
}
