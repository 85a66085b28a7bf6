//! How the two halves wait for each other. All of this is for speed, and no clause speaks of it: whatever a half finds here, it
//! goes on or ends its turn, and another round begins where that one ended.

use std::marker::Model;
use std::sync::Wait;
use std::sync::atomic::{AtomicU64, Ordering};
use std::time::Duration;

/// A half's turn has not begun.
const AWAY: u64 = 0;

/// It is at its turn.
const HERE: u64 = 1;

/// Its turn has ended.
const GONE: u64 = 2;

/// The peer has failed: nothing more is to be read.
const FAILED: u64 = 3;

/// How long the caller waits once for a worker's thread to begin, in milliseconds.
const PATIENCE: u64 = 10;

/// How many values the half of a word has on which threads sleep.
const HALF: u64 = 4_294_967_296;

/// What each half tells the other one. One of them sleeps at most: the worker where the ring is full, the caller where it is
/// empty.
#[derive(Drop)]
pub(crate) struct Gate {
    // How often a half did what the other one may sleep for, modulo 2^64.
    moves: AtomicU64,
    worker: AtomicU64,
    caller: AtomicU64,
    // Whether a worker has not begun in time: no caller waits for that again.
    was_late: AtomicU64,
}

impl Model for Gate {
    ghost Value = { Unit {0} };

    ghost view = { λ _. tt };
}

impl Gate {
    pub(crate) fn new() -> Gate {
        Gate {
            moves: AtomicU64::new(0),
            worker: AtomicU64::new(AWAY),
            caller: AtomicU64::new(AWAY),
            was_late: AtomicU64::new(0),
        }
    }

    /// Begins a round. The caller counts as there from now on, since it is there as soon as the worker.
    pub(crate) fn begin_round(&self) {
        self.worker.store(AWAY, Ordering::SeqCst);
        self.caller.store(HERE, Ordering::SeqCst);
    }

    pub(crate) fn begin_worker(&self) {
        self.worker.store(HERE, Ordering::SeqCst);
    }

    pub(crate) fn end_worker(&self) {
        self.worker.store(GONE, Ordering::SeqCst);
        self.tell();
    }

    pub(crate) fn end_caller(&self, has_failed: bool) {
        let how = if has_failed { FAILED } else { GONE };
        self.caller.store(how, Ordering::SeqCst);
        self.tell();
    }

    /// How often a half told the other one of something. Who is to sleep asks for it before it looks at the ring.
    pub(crate) fn moves(&self) -> u64 {
        self.moves.load(Ordering::SeqCst)
    }

    /// Tells of a push or a pop, and wakes the other half if it sleeps.
    pub(crate) fn tell(&self) {
        self.moves.fetch_add(1, Ordering::SeqCst);
        self.moves.wake_one();
    }

    /// Sleeps while there were so many moves. It may also return for no reason.
    fn rest<R: Wait>(&self, rt: &R, moves: u64) {
        self.moves.park(rt, (moves % HALF) as u32);
    }

    /// Whether the worker's turn has ended. Who asks it before it looks at the ring finds all that was pushed.
    pub(crate) fn has_worker_ended(&self) -> bool {
        self.worker.load(Ordering::SeqCst) == GONE
    }

    /// Whether the peer has failed.
    pub(crate) fn has_peer_failed(&self) -> bool {
        self.caller.load(Ordering::SeqCst) == FAILED
    }

    /// The worker found the ring full: it sleeps until the caller has popped. False where the caller's turn has ended.
    pub(crate) fn wait_for_room<R: Wait>(&self, rt: &R, moves: u64) -> bool {
        if self.caller.load(Ordering::SeqCst) != HERE {
            return false;
        }
        self.rest(rt, moves);
        true
    }

    /// The caller found the ring empty: it sleeps until the worker has pushed or has ended. False where no worker has begun in
    /// time: its thread may come later, or it is run after the caller's turn.
    pub(crate) fn wait_for_reading<R: Wait>(&self, rt: &R, moves: u64) -> bool {
        match self.worker.load(Ordering::SeqCst) {
            HERE => {
                self.rest(rt, moves);
                true
            }
            AWAY => self.wait_for_worker(rt, moves),
            _ => true,
        }
    }

    /// Sleeps for a moment, once, where the worker has not begun. False where it still has not.
    fn wait_for_worker<R: Wait>(&self, rt: &R, moves: u64) -> bool {
        if self.was_late.load(Ordering::SeqCst) != 0 {
            return false;
        }
        self.moves
            .park_timeout(rt, (moves % HALF) as u32, Duration::from_millis(PATIENCE));
        let is_late = self.worker.load(Ordering::SeqCst) == AWAY;
        if is_late {
            self.was_late.store(1, Ordering::SeqCst);
        }
        !is_late
    }
}
