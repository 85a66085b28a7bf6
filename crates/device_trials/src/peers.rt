//! A peer that fails at one of its calls.

ghost use Rattle.std.specs.Prelude.{◌≡◌, ℕ, List, IsErr};
ghost use Rattle.disk_images.specs.Calls.{HasCause};

use disk_images::Failed;
use entry_frame::Entry;
use log_tail::Position;
use ship_queue::{MemPeer, Peer};
use std::alloc::Global;
use std::thread;

/// How often a call gives the processor away first, so that who reads comes ahead of who ships.
const TURNS: u64 = 20;

/// Has in memory what it was told, and fails at one call: it may have been told that or not. It tells nothing to contracts.
#[derive(Drop)]
pub(crate) struct FailPeer {
    pub(crate) told: MemPeer,
    calls: u64,
    fails_at: u64,
    keeps: bool,
    faults: u64,
}

impl FailPeer {
    /// Fails at the call with this number, counted from 1. `keeps`: it has what it was told there.
    pub(crate) fn new(alloc: Global, fails_at: u64, keeps: bool) -> FailPeer {
        FailPeer {
            told: MemPeer::new(alloc),
            calls: 0,
            fails_at,
            keeps,
            faults: 0,
        }
    }

    /// Counts a call, and tells whether it is to fail.
    fn count(&mut self) -> bool
        ensures { self.new.faults ≡ self.old.faults }
    {
        for _turn in 0..TURNS {
            thread::yield_now();
        }
        self.calls = self.calls.saturating_add(1);
        self.calls == self.fails_at
    }

    /// Whether there was room for the entry.
    fn keep_entry(&mut self, at: Position, entry: &Entry) -> bool
        ensures { self.new.faults ≡ self.old.faults }
    {
        self.told.ship(at, entry).is_ok()
    }

    fn keep_position(&mut self, at: Position) -> bool
        ensures { self.new.faults ≡ self.old.faults }
    {
        self.told.confirm(at).is_ok()
    }

    fn answer(&mut self, is_ok: bool) -> Result<(), Failed>
        ensures { HasCause self.old.faults self.new.faults (IsErr result) }
    {
        if is_ok {
            return Ok(());
        }
        self.faults = self.faults.saturating_add(1);
        Err(Failed)
    }
}

impl Peer for FailPeer {
    ghost use Rattle.std.specs.Prelude.{ℕ, List};

    ghost has = { λ p ms. ⊥ };

    ghost torn = { λ p ms m. ⊥ };

    ghost faults = { λ p. p.faults };

    ghost stays = { λ p q. Unit {0} };

    fn ship(&mut self, at: Position, entry: &Entry) -> Result<(), Failed> {
        let fails = self.count();
        if fails && !self.keeps {
            return self.answer(false);
        }
        let is_kept = self.keep_entry(at, entry);
        self.answer(is_kept && !fails)
    }

    fn confirm(&mut self, at: Position) -> Result<(), Failed> {
        let fails = self.count();
        if fails && !self.keeps {
            return self.answer(false);
        }
        let is_kept = self.keep_position(at);
        self.answer(is_kept && !fails)
    }

    ghost stays_itself = { λ p. tt };

    ghost stays_on = { λ p q r first second. tt };
}
