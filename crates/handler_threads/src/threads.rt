//! The threads of a run.

ghost use Rattle.handler_threads.specs.Working.{AreReady, AreSeats, HasHelped, HaveHelped, HaveWorked};

use crate::job::Job;
use region_calls::Helped;
use std::alloc::Global;
use std::sync::Wait;
use std::sync::atomic::{AtomicU64, Ordering};
use std::thread::{Threads, for_each_mut, join_mut};
use std::time::Duration;

/// Runs each handler in a thread of its own. Where no thread can be made the caller's runs it.
fn work_each<R: Threads + Wait + Sync, J: Job + Sync>(
    rt: &R,
    alloc: Global,
    job: &J,
    handlers: &mut [J::Handler],
)
where
    J::Handler: Send,
    requires ready { AreReady J.is_ready job.now handlers.old }
    ensures { HaveWorked J.has_worked job.now handlers.old handlers.new }
{
    let threads = handlers.len().max(1);
    for_each_mut(
        rt,
        handlers,
        threads,
        &|_, handler: &mut J::Handler|
            requires { J.is_ready job.now handler.now }
            ensures { J.has_worked job.entry.now handler.entry.now handler.exit.now }
        { job.work(rt, alloc, handler) },
    );
}

/// Helps the log until it is told to stop. Where there is nothing to do, or another thread does it, it sleeps for a millisecond: no put waits for
/// a helper, and to wake one at each put would cost more than it helps.
fn help_until<R: Wait, J: Job>(rt: &R, job: &J, stop: &AtomicU64, seat: &mut J::Seat)
    requires { J.is_seat job.now seat.old }
    ensures { HasHelped J.is_seat J.log_of job.now seat.old seat.new }
{
    for _ in rt.forever() {
        if stop.load(Ordering::SeqCst) != 0 {
            break;
        }
        match job.help(rt, seat) {
            Helped::Something => {}
            Helped::Busy | Helped::Nothing => {
                stop.park_timeout(rt, 0, Duration::from_millis(1));
            }
        }
    }
}

/// Helps by each seat, in a thread of its own, until the helpers are told to stop. Where no thread can be made one helper comes after another.
fn help_each<R: Threads + Wait + Sync, J: Job + Sync>(
    rt: &R,
    job: &J,
    stop: &AtomicU64,
    seats: &mut [J::Seat],
)
where
    J::Seat: Send,
    requires { AreSeats J.is_seat job.now seats.old }
    ensures { HaveHelped J.is_seat J.log_of job.now seats.old seats.new }
{
    let threads = seats.len().max(1);
    for_each_mut(
        rt,
        seats,
        threads,
        &|_, seat: &mut J::Seat|
            requires { J.is_seat job.now seat.now }
            ensures { HasHelped J.is_seat J.log_of job.entry.now seat.entry.now seat.exit.now }
        { help_until(rt, job, stop, seat) },
    );
}

/// Runs the handlers, and then tells the helpers to stop and wakes them.
fn work_all<R: Threads + Wait + Sync, J: Job + Sync>(
    rt: &R,
    alloc: Global,
    job: &J,
    stop: &AtomicU64,
    handlers: &mut Vec<J::Handler>,
)
where
    J::Handler: Send,
    requires ready { AreReady J.is_ready job.now handlers.old.items }
    ensures { HaveWorked J.has_worked job.now handlers.old.items handlers.new.items }
{
    work_each(rt, alloc, job, handlers.as_mut_slice());
    stop.store(1, Ordering::SeqCst);
    stop.wake_all();
}

/// Runs the handlers beside the helpers. Helpers whose threads can't be made come after the handlers, and find that they are to stop.
fn beside<'a, R: Threads + Wait + Sync, J: Job + Sync>(
    rt: &'a R,
    alloc: Global,
    job: &'a J,
    stop: &'a AtomicU64,
    seats: &mut [J::Seat],
    handlers: &mut Vec<J::Handler>,
)
where
    J::Handler: Send,
    J::Seat: Send,
    requires seats { AreSeats J.is_seat job.now seats.old }
    requires ready { AreReady J.is_ready job.now handlers.old.items }
    ensures worked { HaveWorked J.has_worked job.now handlers.old.items handlers.new.items }
    ensures seats { HaveHelped J.is_seat J.log_of job.now seats.old seats.new }
{
    join_mut(
        rt,
        &mut || -> ()
            requires { AreSeats J.is_seat job.now seats.now }
            ensures { HaveHelped J.is_seat J.log_of job.entry.now seats.entry.now seats.exit.now }
        { help_each(rt, job, stop, seats) },
        &mut || -> ()
            requires { AreReady J.is_ready job.now handlers.now.items }
            ensures { HaveWorked J.has_worked job.entry.now handlers.entry.now.items handlers.exit.now.items }
        { work_all(rt, alloc, job, stop, handlers) },
    );
}

/// Runs all handlers, each in a thread of its own, while by each seat one more thread helps the log; and returns once all have ended.
pub fn run_all<R: Threads + Wait + Sync, J: Job + Sync>(
    rt: &R,
    alloc: Global,
    job: &J,
    seats: &mut [J::Seat],
    handlers: &mut Vec<J::Handler>,
)
where
    J::Handler: Send,
    J::Seat: Send,
    requires seats { AreSeats J.is_seat job.now seats.old }
    requires ready { AreReady J.is_ready job.now handlers.old.items }
    ensures worked { HaveWorked J.has_worked job.now handlers.old.items handlers.new.items }
    ensures seats { HaveHelped J.is_seat J.log_of job.now seats.old seats.new }
{
    let word = AtomicU64::new(0);
    beside(rt, alloc, job, &word, seats, handlers);
}
