//! A disk in memory, which keeps its calls.

ghost use Rattle.std.specs.Prelude.{◌≡◌, ◌≤◌, ℕ, List, IfOk, Option};
ghost use Rattle.std.specs.Option.{option_map};
ghost use Rattle.log_model.specs.Files.{IsAbsent, content};
ghost use Rattle.disk_images.specs.Crash.{IsQuiet};
ghost use Rattle.disk_fakes.specs.Views.{view_of, faults_of, calls_of};

use crate::fail::{CallKind, CallPlan, Fail};
use crate::history::History;
use disk_images::{Disk, Failed, Name, NameList, NamesError};
use kv_cell::NoMemory;
use std::alloc::Global;

/// A disk in memory. It keeps each call that changes or pins something, so it tells what a crash at each moment may
/// leave. A growth that is refused inside it is a failure.
pub struct MemDisk {
    history: History,
    plan: CallPlan,
}

impl Drop for MemDisk {
    fn drop(self) {
        let MemDisk {
            history: _,
            plan: _,
        } = self;
    }
}

impl MemDisk {
    /// An empty quiet disk whose calls of these kinds and numbers fail. A failed write leaves the first half of its
    /// bytes, and after them bytes that nobody wrote; another failed call does nothing.
    pub fn new(alloc: Global, fails: &[Fail]) -> Result<MemDisk, NoMemory>
        ensures empty { IfOk result (λ disk. (m : _) → IsAbsent (view_of disk).files m) }
        ensures none_gone { IfOk result (λ disk. (m : _) → ¬ (view_of disk).gone m) }
        ensures quiet { IfOk result (λ disk. IsQuiet (view_of disk)) }
        ensures clock { IfOk result (λ disk. (view_of disk).clock ≡ 0) }
        ensures calls { (call : _) → IfOk result (λ disk. calls_of disk call ≡ 0) }
        ensures faults { IfOk result (λ disk. faults_of disk ≡ 0) }
    {
        Ok(MemDisk {
            history: History::new(alloc),
            plan: CallPlan::new(alloc, fails)?,
        })
    }

    /// A quiet disk whose files are what a crash at this moment may leave. The choice picks among these: 0 takes each
    /// call for done, 1 loses each call of which nothing has been made durable up to that moment, 2 tears each write
    /// that no sync has made durable, and 3 and on mix these call by call, with writes that are cut short too. A lost
    /// rename leaves the former name, a lost removal the file. The moment is at most the clock.
    pub fn crash(&self, alloc: Global, moment: u64, choice: u64) -> Result<MemDisk, NoMemory>
        requires { moment ≤ (view_of self.now).clock }
        ensures image { IfOk result (λ disk. (view_of self.now).image moment (view_of disk).files) }
        ensures quiet { IfOk result (λ disk. IsQuiet (view_of disk)) }
        ensures none_gone { (m : _) → IfOk result (λ disk. ¬ (view_of disk).gone m) }
        ensures clock { IfOk result (λ disk. (view_of disk).clock ≡ 0) }
        ensures faults { IfOk result (λ disk. faults_of disk ≡ 0) }
    {
        Ok(MemDisk {
            history: self.history.crash(moment, choice)?,
            plan: CallPlan::new(alloc, &[])?,
        })
    }

    /// The number of the last moment.
    pub fn clock(&self) -> u64
        ensures { result ≡ (view_of self.now).clock }
    {
        self.history.clock()
    }

    /// How many calls of a kind were made, also those that failed.
    pub fn calls(&self, call: CallKind) -> u64
        ensures { result ≡ calls_of self.now call }
    {
        self.plan.count(call)
    }

    /// The bytes of a file, or None where the name isn't there.
    pub fn bytes(&self, name: Name) -> Option<&[u8]>
        ensures { content (view_of self.now).files name ≡ option_map (λ v. v.now) result }
    {
        self.history.bytes(name)
    }
}

impl Disk for MemDisk {
    ghost use Rattle.std.specs.Prelude.{true};
    ghost use Rattle.disk_fakes.specs.Views.{view_of, faults_of};
    ghost use Rattle.disk_fakes.specs.Table.{files_in};
    ghost use Rattle.disk_fakes.specs.History.{quiet};
    ghost use Rattle.disk_fakes.specs.Laws.{fair_after, fair_quiet};

    ghost told = { true };

    ghost view = { view_of };

    ghost faults = { faults_of };

    ghost is_true = { λ d told. fair_after (quiet (files_in d.history.first)) (fair_quiet (files_in d.history.first) d.history.named) d.history.ops.items d.history.met };

    fn names(&mut self, alloc: Global) -> Result<NameList, NamesError> {
        let fails = self.plan.begin(CallKind::Names);
        if fails {
            return Err(self.plan.fault(NamesError::Failed));
        }
        match self.history.names(alloc) {
            Ok(names) => Ok(names),
            Err(_) => Err(NamesError::Memory),
        }
    }

    fn size(&mut self, name: Name) -> Result<Option<u64>, Failed> {
        let fails = self.plan.begin(CallKind::Size);
        if fails {
            return Err(self.plan.fault(Failed));
        }
        Ok(self.history.size(name))
    }

    fn read(&mut self, name: Name, at: u64, into: &mut [u8]) -> Result<usize, Failed> {
        let fails = self.plan.begin(CallKind::Read);
        if fails {
            return Err(self.plan.fault(Failed));
        }
        Ok(self.history.read(name, at, into))
    }

    fn create(&mut self, name: Name) -> Result<(), Failed> {
        let fails = self.plan.begin(CallKind::Create);
        let done = self.history.create(name, fails);
        self.plan.end(done)
    }

    fn write_at(&mut self, name: Name, at: u64, bytes: &[u8]) -> Result<(), Failed> {
        let fails = self.plan.begin(CallKind::WriteAt);
        let done = self.history.write_at(name, at, bytes, fails);
        self.plan.end(done)
    }

    fn sync(&mut self, name: Name) -> Result<(), Failed> {
        let fails = self.plan.begin(CallKind::Sync);
        let done = self.history.sync(name, fails);
        self.plan.end(done)
    }

    fn rename(&mut self, from: Name, to: Name) -> Result<(), Failed> {
        let fails = self.plan.begin(CallKind::Rename);
        let done = self.history.rename(from, to, fails);
        self.plan.end(done)
    }

    fn remove(&mut self, name: Name) -> Result<(), Failed> {
        let fails = self.plan.begin(CallKind::Remove);
        let done = self.history.remove(name, fails);
        self.plan.end(done)
    }

    fn settle(&mut self) -> Result<(), Failed> {
        let fails = self.plan.begin(CallKind::Settle);
        let done = self.history.settle(fails);
        self.plan.end(done)
    }
}
