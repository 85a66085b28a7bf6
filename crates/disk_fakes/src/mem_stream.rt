//! A source and a sink in memory, which fail where they are told to.

ghost use Rattle.std.specs.Prelude.{◌≡◌, ◌≤◌, [], IfOk, OnOk, OnErr, vec_len};
ghost use Rattle.disk_images.specs.Calls.{Rose};

use crate::history::read_from;
use disk_images::{Failed, Sink, Source};
use kv_cell::NoMemory;
use std::alloc::Global;

const PIECE: usize = 64;

// Which of the calls that are counted from 1 fail, and how many have failed.
#[derive(Drop)]
pub struct StreamPlan {
    fails: Vec<u64>,
    calls: u64,
    faults: u64,
}

impl StreamPlan {
    fn new(alloc: Global, fails: &[u64]) -> Result<StreamPlan, NoMemory>
        ensures { IfOk result (λ plan. plan.faults ≡ 0) }
    {
        Ok(StreamPlan {
            fails: fails.to_vec(alloc)?,
            calls: 0,
            faults: 0,
        })
    }

    fn fault(&mut self) -> Failed
        ensures rose { Rose self.old.faults self.new.faults }
        ensures later { self.old.faults ≤ self.new.faults }
    {
        self.faults = self.faults.saturating_add(1);
        Failed
    }

    fn begin(&mut self) -> Result<(), Failed>
        ensures ok { OnOk result (self.new.faults ≡ self.old.faults) }
        ensures cause { OnErr result (Rose self.old.faults self.new.faults) }
        ensures later { self.old.faults ≤ self.new.faults }
    {
        self.calls = self.calls.saturating_add(1);
        if self.fails.contains(&self.calls) {
            return Err(self.fault());
        }
        Ok(())
    }
}

/// A source of bytes in memory.
pub struct MemSource {
    bytes: Vec<u8>,
    read: usize,
    plan: StreamPlan,
    ghost within: { read ≤ vec_len bytes },
}

impl Drop for MemSource {
    fn drop(self) {
        let MemSource {
            bytes: _,
            read: _,
            plan: _,
        } = self;
    }
}

impl MemSource {
    ghost use Rattle.disk_fakes.specs.Streams.{source_left, source_faults};

    /// A source of these bytes whose reads of these numbers fail, counted from 1.
    pub fn new(alloc: Global, bytes: &[u8], fails: &[u64]) -> Result<MemSource, NoMemory>
        ensures left { IfOk result (λ source. source_left source ≡ bytes.now) }
        ensures faults { IfOk result (λ source. source_faults source ≡ 0) }
    {
        Ok(MemSource {
            bytes: bytes.to_vec(alloc)?,
            read: 0,
            plan: StreamPlan::new(alloc, fails)?,
        })
    }
}

impl Source for MemSource {
    ghost use Rattle.std.specs.Prelude.{true};
    ghost use Rattle.disk_fakes.specs.Streams.{source_left, source_faults};

    ghost told = { true };

    ghost left = { source_left };

    ghost faults = { source_faults };

    fn read(&mut self, into: &mut [u8]) -> Result<usize, Failed> {
        self.plan.begin()?;
        let n = read_from(&self.bytes, self.read, into);
        self.read += n;
        Ok(n)
    }
}

/// A sink in memory. It takes the first 64 bytes of a longer piece, and the whole of another, and keeps what it took.
/// A growth that is refused inside it is a failure.
pub struct MemSink {
    taken: Vec<u8>,
    plan: StreamPlan,
}

impl Drop for MemSink {
    fn drop(self) {
        let MemSink { taken: _, plan: _ } = self;
    }
}

impl MemSink {
    ghost use Rattle.disk_fakes.specs.Streams.{sink_taken, sink_faults};

    /// An empty sink whose writes of these numbers fail, counted from 1.
    pub fn new(alloc: Global, fails: &[u64]) -> Result<MemSink, NoMemory>
        ensures taken { IfOk result (λ sink. sink_taken sink ≡ []) }
        ensures faults { IfOk result (λ sink. sink_faults sink ≡ 0) }
    {
        Ok(MemSink {
            taken: Vec::new(alloc),
            plan: StreamPlan::new(alloc, fails)?,
        })
    }

    /// What it took.
    pub fn as_slice(&self) -> &[u8]
        ensures { result.now ≡ sink_taken self.now }
    {
        &self.taken
    }
}

impl Sink for MemSink {
    ghost use Rattle.std.specs.Prelude.{true};
    ghost use Rattle.disk_fakes.specs.Streams.{sink_taken, sink_faults};

    ghost told = { true };

    ghost taken = { sink_taken };

    ghost faults = { sink_faults };

    fn write(&mut self, bytes: &[u8]) -> Result<usize, Failed> {
        self.plan.begin()?;
        let n = bytes.len().min(PIECE);
        if self.taken.extend_from_slice(&bytes[..n]).is_err() {
            return Err(self.plan.fault());
        }
        Ok(n)
    }
}
