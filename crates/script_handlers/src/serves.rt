//! What a script's handlers call.

ghost use Rattle.std.specs.Prelude.{◌≡◌, ◌<◌, ◌≤◌, ◌^◌};
ghost use Rattle.region_model.specs.Calls.{is_get};
ghost use Rattle.script_calls.specs.Answers.{answer_of, is_got};
ghost use Rattle.script_calls.specs.Calls.{call_of};

use handler_threads::region_calls::{Gate, Helped};
use script_calls::{Answer, Call};
use std::alloc::Global;
use std::sync::Wait;

/// A server, or several, as a script's handlers and the threads that help its log call it.
pub trait Serves {
    ghost use Rattle.std.specs.Prelude.{ℕ};
    ghost use Rattle.region_model.specs.Journal.{Caller};
    ghost use Rattle.region_model.specs.Calls.{Call as TheCall, Answer as TheAnswer};

    /// What a handler calls it by.
    type Pass;

    /// What a thread that helps calls it by.
    type Seat;

    /// What a handler knows of it.
    ghost Knowledge: { Type 0 };

    ghost knows: { Self.Pass → Knowledge };

    /// The handler's number, and the greatest number of a call that it made.
    ghost handler_of: { Knowledge → ℕ };

    ghost calls_of: { Knowledge → ℕ };

    /// The pass, or the seat, is one of its.
    ghost is_pass: { Self → Self.Pass → Type 0 };

    ghost is_seat: { Self → Self.Seat → Type 0 };

    /// Which of its logs the seat is of.
    ghost log_of: { Self.Seat → ℕ };

    /// A handler of this number may make this call under this number.
    ghost may: { ℕ → ℕ → TheCall → Type 0 };

    /// What a call on it, at this time and with this answer, makes of what its handler knows.
    ghost does: { Self → ℕ → Caller → TheCall → TheAnswer → Knowledge → Knowledge → Type 0 };

    /// The handler's number.
    fn handler(&self, pass: &Self::Pass) -> u32
        ensures { result ≡ handler_of (knows pass.now) };

    /// Waits for the gate, makes a call under this number, and says what it was answered. The time is that of a put's entry, in milliseconds.
    fn make<R: Wait, G: Gate>(
        &self,
        rt: &R,
        alloc: Global,
        gate: &G,
        time: u64,
        pass: &mut Self::Pass,
        number: u32,
        call: Call,
    ) -> Answer
        requires of { is_pass self.now pass.old }
        requires call { may (handler_of (knows pass.old)) number (call_of call) }
        requires number { calls_of (knows pass.old) < number }
        requires time { time < 2 ^ 63 }
        ensures does { does self.now time (record { handler = handler_of (knows pass.old); call = number }) (call_of call) (answer_of result)
            (knows pass.old) (knows pass.new) }
        ensures got { is_got result ≡ is_get (call_of call) }
        ensures handler { handler_of (knows pass.new) ≡ handler_of (knows pass.old) }
        ensures calls { calls_of (knows pass.new) ≤ number }
        ensures of { is_pass self.now pass.new };

    /// Helps the seat's log: one turn of each kind.
    fn help<R: Wait>(&self, rt: &R, seat: &mut Self::Seat) -> Helped
        requires seat { is_seat self.now seat.old }
        ensures seat { is_seat self.now seat.new }
        ensures log { log_of seat.new ≡ log_of seat.old };
}
