//! What threads tell one another, and the syncs of their disk, which can be held back.

use std::sync::atomic::{AtomicU64, Ordering};
use std::sync::{Arc, Wait};
use std::thread;
use std::time::Duration;

/// How often a thread looks at most for a sync.
const LOOKS: u64 = 50_000_000;

/// Something that a thread tells, or waits for.
#[derive(Clone, Copy)]
pub(crate) enum Sign {
    /// Holds back each sync from now on. It is answered with 1, as the next two are.
    Hold,
    /// Lets each sync go on.
    Release,
    /// Comes.
    Come,
    /// Waits until so many syncs were begun. It is answered with how many were.
    Syncs(u64),
    /// Waits until so many came, for so many milliseconds at most. It is answered with how many have.
    Came(u64, u64),
}

/// How many syncs were begun, whether syncs are held back, and how often one came.
#[derive(Drop)]
pub(crate) struct Watch {
    seen: Arc<AtomicU64>,
    held: Arc<AtomicU64>,
    came: AtomicU64,
}

impl Watch {
    pub(crate) fn new(seen: Arc<AtomicU64>, held: Arc<AtomicU64>) -> Watch {
        Watch {
            seen,
            held,
            came: AtomicU64::new(0),
        }
    }

    /// Sleeps for a millisecond, unless someone comes.
    pub(crate) fn pause<R: Wait>(&self, rt: &R) {
        let count = (self.came.load(Ordering::SeqCst) & 0xffff_ffff) as u32;
        self.came.park_timeout(rt, count, Duration::from_millis(1));
    }

    fn wait_begun(&self, wanted: u64) -> u64 {
        for _ in 0..LOOKS {
            let begun = self.seen.load(Ordering::SeqCst);
            if begun >= wanted {
                return begun;
            }
            thread::yield_now();
        }
        0
    }

    fn wait_came<R: Wait>(&self, rt: &R, wanted: u64, looks: u64) -> u64 {
        for _ in 0..looks {
            if self.came.load(Ordering::SeqCst) >= wanted {
                break;
            }
            self.pause(rt);
        }
        self.came.load(Ordering::SeqCst)
    }

    fn come(&self) {
        self.came.fetch_add(1, Ordering::SeqCst);
        self.came.wake_all();
    }

    /// Tells a sign, or waits for it.
    pub(crate) fn give<R: Wait>(&self, rt: &R, sign: Sign) -> u64 {
        match sign {
            Sign::Hold => self.held.store(1, Ordering::SeqCst),
            Sign::Release => self.held.store(0, Ordering::SeqCst),
            Sign::Come => self.come(),
            Sign::Syncs(wanted) => return self.wait_begun(wanted),
            Sign::Came(wanted, looks) => return self.wait_came(rt, wanted, looks),
        }
        1
    }
}
