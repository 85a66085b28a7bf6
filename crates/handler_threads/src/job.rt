//! What handlers do on a server.

ghost use Rattle.std.specs.Prelude.{◌≡◌};

use region_calls::Helped;
use std::alloc::Global;
use std::sync::Wait;

/// A server, or several, and what its handlers do on it. Threads share it.
pub trait Job {
    ghost use Rattle.std.specs.Prelude.{ℕ};

    /// A handler: what it calls by, what it is to do and what it has done.
    type Handler;

    /// What a thread that helps the log calls by.
    type Seat;

    /// The handler may begin.
    ghost is_ready: { Self → Self.Handler → Type 0 };

    /// What a handler is once it has worked, by what it was.
    ghost has_worked: { Self → Self.Handler → Self.Handler → Type 0 };

    /// The seat is one of the server's.
    ghost is_seat: { Self → Self.Seat → Type 0 };

    /// Which of the logs the seat is of.
    ghost log_of: { Self.Seat → ℕ };

    /// Does all that the handler is to do.
    fn work<R: Wait>(&self, rt: &R, alloc: Global, handler: &mut Self::Handler)
        requires ready { is_ready self.now handler.old }
        ensures worked { has_worked self.now handler.old handler.new };

    /// Helps the seat's log: one turn of each kind.
    fn help<R: Wait>(&self, rt: &R, seat: &mut Self::Seat) -> Helped
        requires seat { is_seat self.now seat.old }
        ensures seat { is_seat self.now seat.new }
        ensures log { log_of seat.new ≡ log_of seat.old };
}
