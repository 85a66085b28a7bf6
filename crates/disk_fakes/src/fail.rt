//! Which calls of a disk fail, and how many calls and faults there were.

ghost use Rattle.std.specs.Prelude.{◌≡◌, ◌<◌, ◌≤◌, ℕ, IfOk, IsErr, slice_index};
ghost use Rattle.disk_images.specs.Calls.{HasCause, Rose};

use disk_images::Failed;
use kv_cell::NoMemory;
use std::alloc::Global;

/// The calls of a disk.
#[derive(Clone, Copy, Debug, PartialEq, Eq)]
pub enum CallKind {
    Names,
    Size,
    Read,
    Create,
    WriteAt,
    Sync,
    Rename,
    Remove,
    Settle,
}

/// The call of this kind with this number is to fail. The calls of a kind are counted from 1.
#[derive(Clone, Copy)]
pub struct Fail {
    pub call: CallKind,
    pub nth: u64,
}

const KINDS: usize = 9;

// The calls that are to fail, and how many calls of each kind and how many faults there were.
#[derive(Drop)]
pub struct CallPlan {
    pub fails: Vec<Fail>,
    pub counts: [u64; KINDS],
    pub faults: u64,
}

impl CallPlan {
    ghost use Rattle.disk_fakes.specs.Plan.{count_of};

    pub fn new(alloc: Global, fails: &[Fail]) -> Result<CallPlan, NoMemory>
        ensures none { (call : _) → IfOk result (λ plan. count_of plan call ≡ 0) }
        ensures faults { IfOk result (λ plan. plan.faults ≡ 0) }
    {
        Ok(CallPlan {
            fails: fails.to_vec(alloc)?,
            counts: [0; KINDS],
            faults: 0,
        })
    }

    /// How many calls of a kind there were. It stands at the end of its type.
    pub fn count(&self, call: CallKind) -> u64
        ensures { result ≡ count_of self.now call }
    {
        self.counts[call as usize]
    }

    /// Counts a call, and tells whether it is to fail.
    pub fn begin(&mut self, call: CallKind) -> bool
        ensures { self.new.faults ≡ self.old.faults }
    {
        let nth = self.count(call).saturating_add(1);
        self.counts[call as usize] = nth;
        self.fails
            .iter()
            .any(|fail| fail.call == call && fail.nth == nth)
    }

    /// Counts a fault, and hands on what is answered for it.
    pub fn fault<E>(&mut self, error: E) -> E
        ensures same { result ≡ error }
        ensures later { self.old.faults ≤ self.new.faults }
        ensures rose { Rose self.old.faults self.new.faults }
    {
        self.faults = self.faults.saturating_add(1);
        error
    }

    /// Counts a fault where the call failed, and hands its answer on.
    pub fn end(&mut self, answer: Result<(), Failed>) -> Result<(), Failed>
        ensures same { result ≡ answer }
        ensures cause { HasCause self.old.faults self.new.faults (IsErr result) }
    {
        match answer {
            Ok(()) => Ok(()),
            Err(failed) => Err(self.fault(failed)),
        }
    }
}
