//! A sync is held back for as long as a word says, and goes on after it.

use disk_fakes::{MemDisk, WatchDisk};
use disk_images::{Name, NameKind, create_durably};
use std::alloc::Global;
use std::sync::Arc;
use std::sync::atomic::{AtomicU64, Ordering};
use std::test::Fail;
use std::thread;

/// Makes a file durable on a disk that is watched, and then sets the word `done`. The disk is never dropped: no trial shows how.
fn make_file(alloc: Global, seen: Arc<AtomicU64>, held: Arc<AtomicU64>, done: &AtomicU64) {
    let Ok(mem) = MemDisk::new(alloc, &[]) else {
        return;
    };
    let name = Name {
        kind: NameKind::Log,
        region: 0,
        number: 1,
    };
    let Ok(disk) = Box::new(alloc, WatchDisk::new(mem, seen, held)) else {
        return;
    };
    if create_durably(Box::leak(disk), name, b"hello").is_ok() {
        done.store(1, Ordering::SeqCst);
    }
}

/// Gives the processor away until the word is 1, at most this many times, and says whether it is.
fn becomes_one(word: &AtomicU64, turns: u64) -> bool {
    for _ in 0..turns {
        if word.load(Ordering::SeqCst) == 1 {
            return true;
        }
        thread::yield_now();
    }
    false
}

/// Waits for the first sync, and lets it go on a while later. Says whether a sync began, and whether the file was made
/// before it was let go.
fn hold(seen: &AtomicU64, held: &AtomicU64, done: &AtomicU64) -> (bool, bool) {
    let began = becomes_one(seen, 50_000_000);
    let passed = becomes_one(done, 10_000);
    held.store(0, Ordering::SeqCst);
    (began, passed)
}

/// A word that is never dropped.
fn word(alloc: Global, value: u64) -> Result<&'static Arc<AtomicU64>, Fail> {
    let word = Arc::new(alloc, AtomicU64::new(value))?;
    Ok(Box::leak(Box::new(alloc, word)?))
}

#[test]
fn sync_is_held_back(rt: HostRuntime) -> Result<(), Fail> {
    let alloc = rt.alloc();
    let (seen, held) = (word(alloc, 0)?, word(alloc, 1)?);
    let done = AtomicU64::new(0);
    let (its_seen, its_held) = (Arc::try_clone(seen)?, Arc::try_clone(held)?);
    let ((), (began, passed)) = thread::join(
        &rt,
        || make_file(alloc, its_seen, its_held, &done),
        || hold(seen, held, &done),
    );
    let made = done.load(Ordering::SeqCst) == 1;
    assert!(rt; began && !passed && made, "{began} {passed} {made}");
    Ok(())
}
