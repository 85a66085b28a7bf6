//! A gate that holds handlers, for a bounded time, and counts how often they come.

use load_run::Gate;
use std::sync::Wait;
use std::sync::atomic::{AtomicU64, Ordering};
use std::thread;

const TURNS: u64 = 1_000_000;

/// Gives the processor away until the word has reached this, for a bounded number of turns. Says whether it has.
fn reaches(word: &AtomicU64, wanted: u64) -> bool {
    for _ in 0..TURNS {
        if word.load(Ordering::SeqCst) >= wanted {
            return true;
        }
        thread::yield_now();
    }
    false
}

/// Which calls of handlers are held, and what they wait for.
#[derive(Clone, Copy)]
pub(crate) enum Hold {
    /// None.
    Nobody,
    /// Each put that is logged, until the disk has seen so many syncs.
    UntilSyncs(u64),
    /// Each put that is logged, until so many are.
    UntilLogged(u64),
    /// Each call of all handlers but the first, until the first one comes to this call.
    UntilCall(u32),
    /// The disk's syncs from the first handler's call on, and the second handler's first call until so many syncs were begun. The disk
    /// goes on at the second handler's next call.
    Disk(u32, u64),
}

/// How often a gate was passed: before calls, and by puts that were logged.
#[derive(Clone, Copy)]
pub(crate) struct Passed {
    pub(crate) begun: u64,
    pub(crate) logged: u64,
}

impl Passed {
    /// Whether it was passed so often.
    pub(crate) fn has(self, begun: u64, logged: u64) -> bool {
        self.begun == begun && self.logged == logged
    }
}

/// All runs pass such a gate, so that a run is built once.
#[derive(Drop)]
pub(crate) struct HoldGate {
    hold: Hold,
    /// How many syncs the disk has begun, and whether it is held in one.
    seen: &'static AtomicU64,
    held: &'static AtomicU64,
    /// How many calls were begun, and how many puts are logged.
    begun: AtomicU64,
    logged: AtomicU64,
    /// Whether the first handler has come to its call.
    came: AtomicU64,
    /// How many waits were in vain.
    vain: AtomicU64,
}

impl HoldGate {
    pub(crate) fn new(hold: Hold, seen: &'static AtomicU64, held: &'static AtomicU64) -> HoldGate {
        HoldGate {
            hold,
            seen,
            held,
            begun: AtomicU64::new(0),
            logged: AtomicU64::new(0),
            came: AtomicU64::new(0),
            vain: AtomicU64::new(0),
        }
    }

    /// How many waits were in vain.
    pub(crate) fn vain(&self) -> u64 {
        self.vain.load(Ordering::SeqCst)
    }

    /// How often it was passed.
    pub(crate) fn passed(&self) -> Passed {
        Passed {
            begun: self.begun.load(Ordering::SeqCst),
            logged: self.logged.load(Ordering::SeqCst),
        }
    }

    /// Waits for the word, and counts a wait that was in vain.
    fn wait(&self, word: &AtomicU64, wanted: u64) {
        if !reaches(word, wanted) {
            self.vain.fetch_add(1, Ordering::SeqCst);
        }
    }

    /// The first handler holds the disk at this call; another one comes after so many syncs, and lets it go at its next call.
    fn hold_disk(&self, handler: u32, call: u32, at: u32, syncs: u64) {
        if handler == 1 {
            if call == at {
                self.held.store(1, Ordering::SeqCst);
            }
        } else if call == 1 {
            self.wait(self.seen, syncs);
        } else {
            self.held.store(0, Ordering::SeqCst);
        }
    }
}

impl Gate for HoldGate {
    fn before<R: Wait>(&self, _rt: &R, handler: u32, call: u32) {
        self.begun.fetch_add(1, Ordering::SeqCst);
        match self.hold {
            Hold::UntilCall(at) => {
                if handler != 1 {
                    self.wait(&self.came, 1);
                } else if call == at {
                    self.came.store(1, Ordering::SeqCst);
                }
            }
            Hold::Disk(at, syncs) => self.hold_disk(handler, call, at, syncs),
            Hold::Nobody | Hold::UntilSyncs(_) | Hold::UntilLogged(_) => {}
        }
    }

    fn logged<R: Wait>(&self, _rt: &R, _handler: u32, _call: u32) {
        self.logged.fetch_add(1, Ordering::SeqCst);
        match self.hold {
            Hold::UntilSyncs(syncs) => self.wait(self.seen, syncs),
            Hold::UntilLogged(puts) => self.wait(&self.logged, puts),
            Hold::Nobody | Hold::UntilCall(_) | Hold::Disk(_, _) => {}
        }
    }
}
