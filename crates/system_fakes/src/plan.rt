//! Which calls of a system fail, and how many calls and faults there were.

ghost use Rattle.std.specs.Prelude.{◌≡◌, ◌≤◌, IfOk, IsErr};
ghost use Rattle.disk_images.specs.Calls.{HasCause, Rose};

use std::io;

/// What becomes of a call.
#[derive(Clone, Copy, Debug, PartialEq, Eq)]
pub enum Fate {
    Done,
    /// It answers an error, and does nothing. An fsync leaves its file doubtful.
    Refused,
    /// It is done, and answers an error. A write is torn, and an fsync leaves its file doubtful.
    Unsaid,
}

impl Fate {
    pub fn is_refused(self) -> bool {
        matches!(self, Fate::Refused)
    }

    pub fn is_failed(self) -> bool {
        !matches!(self, Fate::Done)
    }

    /// What a call that was done answers.
    pub fn answer<T: Drop>(self, given: T) -> io::Result<T>
        ensures { IfOk result (λ x. x ≡ given) }
    {
        match self {
            Fate::Done => Ok(given),
            _ => Err(failure()),
        }
    }
}

/// The error that a call answers.
pub fn failure() -> io::Error {
    io::Error::from(io::ErrorKind::Other)
}

/// The calls from this number on, as many, have this fate. Calls are counted from 1.
#[derive(Clone, Copy)]
pub struct Failing {
    pub from: u64,
    pub count: u64,
    pub fate: Fate,
}

// The calls that are to fail, and how many calls and faults there were.
#[derive(Drop)]
pub struct CallPlan {
    pub failing: Failing,
    pub calls: u64,
    pub faults: u64,
}

impl CallPlan {
    pub fn new(failing: Failing) -> CallPlan
        ensures { result.faults ≡ 0 }
    {
        CallPlan {
            failing,
            calls: 0,
            faults: 0,
        }
    }

    /// Counts a call, and gives its fate.
    pub fn begin(&mut self) -> Fate
        ensures { self.new.faults ≡ self.old.faults }
    {
        self.calls = self.calls.saturating_add(1);
        let Failing { from, count, fate } = self.failing;
        if from <= self.calls && self.calls - from < count {
            fate
        } else {
            Fate::Done
        }
    }

    /// Counts a fault where the call failed, and hands its answer on.
    pub fn end<T>(&mut self, given: io::Result<T>) -> io::Result<T>
        ensures same { result ≡ given }
        ensures cause { HasCause self.old.faults self.new.faults (IsErr result) }
    {
        if given.is_err() {
            self.faults = self.faults.saturating_add(1);
        }
        given
    }
}
