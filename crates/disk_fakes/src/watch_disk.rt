//! A disk whose syncs are counted and can be held back.

ghost use Rattle.std.specs.Prelude.{◌≡◌};

use disk_images::{Disk, Failed, Name, NameList, NamesError};
use std::alloc::Global;
use std::sync::Arc;
use std::sync::atomic::{AtomicU64, Ordering};
use std::thread;

const TURNS: u64 = 100_000_000;

/// Another disk, which is told each call. Before each `sync` it adds one to the word `seen`, and then waits until the
/// word `held` is 0, for at most 100,000,000 turns. It takes no memory.
pub struct WatchDisk<D> {
    disk: D,
    seen: Arc<AtomicU64>,
    held: Arc<AtomicU64>,
}

impl<D: Drop> Drop for WatchDisk<D> {
    fn drop(self) {
        let WatchDisk {
            disk: _,
            seen: _,
            held: _,
        } = self;
    }
}

impl<D> WatchDisk<D> {
    ghost use Rattle.disk_fakes.specs.Watch.{watched};

    pub fn new(disk: D, seen: Arc<AtomicU64>, held: Arc<AtomicU64>) -> WatchDisk<D>
        ensures { watched result ≡ disk }
    {
        WatchDisk { disk, seen, held }
    }

    /// The disk that it watches.
    pub fn disk(&self) -> &D
        ensures { result.now ≡ watched self.now }
    {
        &self.disk
    }
}

impl<D: Disk> Disk for WatchDisk<D> {
    ghost use Rattle.disk_fakes.specs.Watch.{watched};

    ghost told = { D.told };

    ghost view = { λ w. D.view (watched w) };

    ghost faults = { λ w. D.faults (watched w) };

    ghost is_true = { λ w told. D.is_true (watched w) told };

    fn names(&mut self, alloc: Global) -> Result<NameList, NamesError> {
        self.disk.names(alloc)
    }

    fn size(&mut self, name: Name) -> Result<Option<u64>, Failed> {
        self.disk.size(name)
    }

    fn read(&mut self, name: Name, at: u64, into: &mut [u8]) -> Result<usize, Failed> {
        self.disk.read(name, at, into)
    }

    fn create(&mut self, name: Name) -> Result<(), Failed> {
        self.disk.create(name)
    }

    fn write_at(&mut self, name: Name, at: u64, bytes: &[u8]) -> Result<(), Failed> {
        self.disk.write_at(name, at, bytes)
    }

    fn sync(&mut self, name: Name) -> Result<(), Failed> {
        self.seen.fetch_add(1, Ordering::SeqCst);
        wait_until_zero(&self.held);
        self.disk.sync(name)
    }

    fn rename(&mut self, from: Name, to: Name) -> Result<(), Failed> {
        self.disk.rename(from, to)
    }

    fn remove(&mut self, name: Name) -> Result<(), Failed> {
        self.disk.remove(name)
    }

    fn settle(&mut self) -> Result<(), Failed> {
        self.disk.settle()
    }
}

/// Gives the processor away until the word is 0, for a bounded number of turns.
fn wait_until_zero(word: &AtomicU64) {
    for _ in 0..TURNS {
        if word.load(Ordering::SeqCst) == 0 {
            return;
        }
        thread::yield_now();
    }
}
