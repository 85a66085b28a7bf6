//! Counts on which threads sleep until they rise.

use std::marker::Model;
use std::sync::Wait;
use std::sync::atomic::{AtomicU64, Ordering};

/// How many values the half of a word has on which threads sleep.
const HALF: u64 = 4_294_967_296;

/// How many counts `Shows` has.
const COUNTS: usize = 8;

/// The half of a word's value that a sleep looks at.
pub(crate) fn low_half(word: u64) -> u32 {
    (word % HALF) as u32
}

/// A count that rises, modulo 2^64, and on which threads sleep until it has risen. Contracts see nothing of it, as of all that stands for speed.
#[derive(Drop)]
pub(crate) struct EventCount {
    count: AtomicU64,
    // How many threads sleep or are about to.
    sleepers: AtomicU64,
}

impl Model for EventCount {
    ghost Value = { Unit {0} };

    ghost view = { λ _. tt };
}

impl EventCount {
    pub(crate) fn new() -> EventCount {
        EventCount {
            count: AtomicU64::new(0),
            sleepers: AtomicU64::new(0),
        }
    }

    /// The count as it is now.
    pub(crate) fn now(&self) -> u64 {
        self.count.load(Ordering::SeqCst)
    }

    /// Sleeps while the count is the number that was seen. It may also return for no reason. No raise is slept through: who raised the count
    /// and saw no sleeper did so before this one was counted, and so before it looks whether the count is still the number.
    pub(crate) fn rest<R: Wait>(&self, rt: &R, seen: u64) {
        self.sleepers.fetch_add(1, Ordering::SeqCst);
        self.count.park(rt, low_half(seen));
        self.sleepers.fetch_sub(1, Ordering::SeqCst);
    }

    /// Raises the count, and wakes all that sleep on it.
    pub(crate) fn raise(&self) {
        self.count.fetch_add(1, Ordering::SeqCst);
        if self.sleepers.load(Ordering::SeqCst) > 0 {
            self.count.wake_all();
        }
    }

    /// Raises the count, and wakes one of those that sleep on it.
    pub(crate) fn raise_for_one(&self) {
        self.count.fetch_add(1, Ordering::SeqCst);
        self.wake_one();
    }

    /// Wakes one more of those that sleep on it.
    pub(crate) fn wake_one(&self) {
        if self.sleepers.load(Ordering::SeqCst) > 0 {
            self.count.wake_one();
        }
    }
}

/// How often puts have told that they ended or showed an edit: a count for each region, which it shares with each eighth one after it.
#[derive(Drop)]
pub(crate) struct Shows {
    counts: [EventCount; COUNTS],
}

impl Model for Shows {
    ghost Value = { Unit {0} };

    ghost view = { λ _. tt };
}

impl Shows {
    pub(crate) fn new() -> Shows {
        Shows {
            counts: [
                EventCount::new(),
                EventCount::new(),
                EventCount::new(),
                EventCount::new(),
                EventCount::new(),
                EventCount::new(),
                EventCount::new(),
                EventCount::new(),
            ],
        }
    }

    /// The count of a region.
    pub(crate) fn of(&self, region: u32) -> &EventCount {
        &self.counts[region as usize % COUNTS]
    }
}
