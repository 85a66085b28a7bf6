//! Which puts a commit waits for, and on what they wait for it.
//!
//! Commits are cheapest where each put that could come along does. So who commits waits a moment for as many puts as the last commits had
//! company, and who waits for a commit sleeps on a count of that commit, so that its end wakes those whose puts are durable then and one
//! more, which commits next. All of this is for speed: no clause speaks of it.

use crate::counting::{EventCount, low_half};
use std::marker::Model;
use std::sync::Wait;
use std::sync::atomic::{AtomicU64, Ordering};
use std::time::Duration;

/// How long a commit waits for company at most, in microseconds.
const LIMIT: u64 = 60;

/// How many puts are under way, and how many of them the next commit is worth being held for.
#[derive(Drop)]
pub(crate) struct Company {
    // How many sync requests were pushed.
    pushed: AtomicU64,
    // Twice how many of them were handed over, and one more where the commit that had the last of them is an odd one. It is one word, so
    // that a put sees both as they were at one moment. Who has the device's turn writes it.
    served: AtomicU64,
    // How many were handed over before the last hand-over, and how many a commit waits for. Who has the device's turn writes both.
    before: AtomicU64,
    target: AtomicU64,
    // On what the committer sleeps, and whether it does.
    word: AtomicU64,
    sleeps: AtomicU64,
    // Whether an item was found that doesn't fit the chain, so that no company can come in.
    full: AtomicU64,
}

impl Model for Company {
    ghost Value = { Unit {0} };

    ghost view = { λ _. tt };
}

impl Company {
    pub(crate) fn new() -> Company {
        Company {
            pushed: AtomicU64::new(0),
            served: AtomicU64::new(0),
            before: AtomicU64::new(0),
            target: AtomicU64::new(1),
            word: AtomicU64::new(0),
            sleeps: AtomicU64::new(0),
            full: AtomicU64::new(0),
        }
    }

    /// How many sync requests were pushed.
    pub(crate) fn pushed(&self) -> u64 {
        self.pushed.load(Ordering::SeqCst)
    }

    /// How many of them weren't handed over yet. A request may be handed over before it is counted.
    fn pending(&self) -> u64 {
        let served = self.served.load(Ordering::SeqCst) / 2;
        self.pushed().saturating_sub(served)
    }

    /// Counts a sync request that was pushed. Where it completes the company of a committer that sleeps, that one is woken. No company is
    /// slept through: this counts before it looks who sleeps, and a committer tells that it sleeps before it looks at the count.
    pub(crate) fn push(&self) {
        self.pushed.fetch_add(1, Ordering::SeqCst);
        if self.sleeps.load(Ordering::SeqCst) > 0
            && self.pending() >= self.target.load(Ordering::SeqCst)
        {
            self.wake();
        }
    }

    /// Wakes the committer, once.
    fn wake(&self) {
        if self.sleeps.swap(0, Ordering::SeqCst) > 0 {
            self.word.fetch_add(1, Ordering::SeqCst);
            self.word.wake_one();
        }
    }

    /// Ends a committer's wait, since the next item doesn't fit the chain.
    pub(crate) fn hurry(&self) {
        self.full.store(1, Ordering::SeqCst);
        self.wake();
    }

    /// Waits for company, for a moment at most; not where its put is the only one for which a commit waits, nor where there is none. For who
    /// has the device's turn: nobody else can commit meanwhile.
    pub(crate) fn gather<R: Wait>(&self, rt: &R) {
        let target = self.target.load(Ordering::SeqCst);
        let pending = self.pending();
        if pending == 0 || pending >= target {
            return;
        }
        let seen = self.word.load(Ordering::SeqCst);
        self.sleeps.store(1, Ordering::SeqCst);
        if self.is_wanting(target) {
            self.word
                .park_timeout(rt, low_half(seen), Duration::from_micros(LIMIT));
        }
        self.sleeps.store(0, Ordering::SeqCst);
        if self.is_wanting(target) {
            self.target
                .store(target.saturating_sub(1).max(1), Ordering::SeqCst);
        }
    }

    /// Whether more company is wanted, and could come in.
    fn is_wanting(&self, target: u64) -> bool {
        self.pending() < target && self.full.load(Ordering::SeqCst) == 0
    }

    /// So many sync requests are handed over, and begin a commit. For who has the device's turn.
    pub(crate) fn serve(&self, count: u64) {
        let served = self.served.load(Ordering::SeqCst);
        self.before.store(served / 2, Ordering::SeqCst);
        if count > 0 {
            let more = served.wrapping_add(count.wrapping_mul(2));
            self.served.store(more ^ 1, Ordering::SeqCst);
        }
        if self.full.load(Ordering::SeqCst) > 0 {
            self.full.store(0, Ordering::SeqCst);
        }
    }

    /// A commit was done: those that it had and those that came meanwhile are the next one's company, where they are more than it waited for.
    pub(crate) fn learn(&self) {
        let before = self.before.load(Ordering::SeqCst);
        let company = self.pushed().saturating_sub(before);
        if company > self.target.load(Ordering::SeqCst) {
            self.target.store(company, Ordering::SeqCst);
        }
    }

    /// Whether the last commit that was begun is an odd one.
    pub(crate) fn is_odd(&self) -> bool {
        self.served.load(Ordering::SeqCst) % 2 == 1
    }

    /// Whether the commit is an odd one that has the first so many sync requests: the last one that was begun, or the next one.
    pub(crate) fn is_odd_with(&self, requests: u64) -> bool {
        let served = self.served.load(Ordering::SeqCst);
        let is_odd = served % 2 == 1;
        (served / 2 >= requests) == is_odd
    }
}

/// On what puts sleep until a commit has ended: a count for even commits, and one for odd ones.
#[derive(Drop)]
pub(crate) struct Commits {
    even: EventCount,
    odd: EventCount,
}

impl Model for Commits {
    ghost Value = { Unit {0} };

    ghost view = { λ _. tt };
}

impl Commits {
    pub(crate) fn new() -> Commits {
        Commits {
            even: EventCount::new(),
            odd: EventCount::new(),
        }
    }

    /// The count of the even or the odd commits.
    pub(crate) fn of(&self, is_odd: bool) -> &EventCount {
        if is_odd { &self.odd } else { &self.even }
    }

    /// An even or an odd commit has ended. Wakes one of those that wait for the next one, which commits next, and all that wait for this one.
    pub(crate) fn end(&self, is_odd: bool) {
        self.of(!is_odd).raise_for_one();
        self.of(is_odd).raise();
    }

    /// Wakes all, since each may be durable now, or none will be.
    pub(crate) fn end_all(&self) {
        self.even.raise();
        self.odd.raise();
    }
}
