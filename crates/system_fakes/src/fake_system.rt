//! A system in memory, which keeps its calls.

ghost use Rattle.std.specs.Prelude.{◌≡◌, IfOk};
ghost use Rattle.std.specs.FinMap as map;
ghost use Rattle.system_fakes.specs.Views.{view_of, faults_of};

use crate::fake_file::FakeFile;
use crate::history::History;
use crate::plan::{CallPlan, Failing, Fate};
use disk_images::Name;
use folder_system::System;
use std::alloc::{AllocError, Global};
use std::io;

/// A system in memory. It keeps each call that changes or pins something, so it tells what a crash at each moment may
/// leave: the names and the bytes of each file reach the disk independently, as far as no fsync has pinned them. A
/// growth that is refused inside it is a failure.
pub struct FakeSystem {
    history: History,
    plan: CallPlan,
}

impl Drop for FakeSystem {
    fn drop(self) {
        let FakeSystem {
            history: _,
            plan: _,
        } = self;
    }
}

impl FakeSystem {
    /// An empty folder, whose calls don't fail.
    pub fn new(alloc: Global) -> FakeSystem
        ensures empty { (view_of result).folder ≡ map.empty }
        ensures faults { faults_of result ≡ 0 }
    {
        FakeSystem::failing(
            alloc,
            Failing {
                from: 0,
                count: 0,
                fate: Fate::Done,
            },
        )
    }

    /// An empty folder, of whose calls these fail.
    pub fn failing(alloc: Global, failing: Failing) -> FakeSystem
        ensures empty { (view_of result).folder ≡ map.empty }
        ensures faults { faults_of result ≡ 0 }
    {
        FakeSystem {
            history: History::new(alloc),
            plan: CallPlan::new(failing),
        }
    }

    /// A folder as a crash now may leave it, whose calls don't fail. The choice picks among these: 0 takes each call for done, 1
    /// loses each one that no fsync has pinned, 2 tears each write that none has, and 3 and on mix these call by call, with
    /// writes that are cut short too. A lost rename leaves the former name, and a lost removal the file.
    pub fn image(&self, choice: u64) -> Result<FakeSystem, AllocError>
        ensures image { IfOk result (λ image. (view_of self.now).now (view_of image).folder (view_of image).bytes) }
        ensures faults { IfOk result (λ image. faults_of image ≡ 0) }
    {
        Ok(FakeSystem {
            history: self.history.image(choice)?,
            plan: CallPlan::new(Failing {
                from: 0,
                count: 0,
                fate: Fate::Done,
            }),
        })
    }

    /// How many calls were made, also those that failed. It stands at the end of its type.
    pub fn calls(&self) -> u64 {
        self.plan.calls
    }
}

impl System for FakeSystem {
    ghost use Rattle.std.specs.Prelude.{true};
    ghost use Rattle.system_fakes.specs.Views.{view_of, faults_of, inode_of, state_of};
    ghost use Rattle.system_fakes.specs.Table.{held_in};
    ghost use Rattle.system_fakes.specs.History.{quiet};
    ghost use Rattle.system_fakes.specs.Conditions.{start_of};
    ghost use Rattle.system_fakes.specs.Fair.{fair_after, fair_quiet, true_state};

    type Handle = FakeFile;

    ghost told = { true };

    ghost view = { view_of };

    ghost faults = { faults_of };

    ghost inode = { inode_of };

    ghost is_true = { λ s told. true_state (state_of s.history) (fair_after (quiet (held_in s.history.first)) s.history.ops.items
        (fair_quiet (held_in s.history.first) (start_of (held_in s.history.first) s.history.named s.history.single s.history.given s.history.no_part s.history.certain)) s.history.met) };

    fn names(&mut self, alloc: Global) -> io::Result<Vec<Name>> {
        let fate = self.plan.begin();
        let given = self.history.names(alloc, fate);
        self.plan.end(given)
    }

    fn length(&mut self, name: Name) -> io::Result<Option<u64>> {
        let fate = self.plan.begin();
        let given = self.history.length(name, fate);
        self.plan.end(given)
    }

    /// No file is known to be sealed.
    fn is_sealed(&mut self, name: Name) -> io::Result<bool> {
        let _ = name;
        Ok(false)
    }

    fn open(&mut self, name: Name, for_writing: bool) -> io::Result<FakeFile> {
        let _ = for_writing;
        let fate = self.plan.begin();
        let given = self.history.open(name, fate);
        self.plan.end(given)
    }

    fn create(&mut self, name: Name) -> io::Result<FakeFile> {
        let fate = self.plan.begin();
        let given = self.history.create(name, fate);
        self.plan.end(given)
    }

    fn read(&mut self, file: &FakeFile, at: u64, into: &mut [u8]) -> io::Result<usize> {
        let fate = self.plan.begin();
        let given = self.history.read(file, at, into, fate);
        self.plan.end(given)
    }

    fn write(&mut self, file: &FakeFile, at: u64, bytes: &[u8]) -> io::Result<()> {
        let fate = self.plan.begin();
        let given = self.history.write(file, at, bytes, fate);
        self.plan.end(given)
    }

    fn sync(&mut self, file: &FakeFile) -> io::Result<()> {
        let fate = self.plan.begin();
        let given = self.history.sync(file, fate);
        self.plan.end(given)
    }

    fn rename(&mut self, from: Name, to: Name) -> io::Result<()> {
        let fate = self.plan.begin();
        let given = self.history.rename(from, to, fate);
        self.plan.end(given)
    }

    fn unlink(&mut self, name: Name) -> io::Result<()> {
        let fate = self.plan.begin();
        let given = self.history.unlink(name, fate);
        self.plan.end(given)
    }

    fn sync_folder(&mut self) -> io::Result<()> {
        let fate = self.plan.begin();
        let given = self.history.sync_folder(fate);
        self.plan.end(given)
    }

    fn create_part(&mut self, name: Name) -> io::Result<FakeFile> {
        let fate = self.plan.begin();
        let given = self.history.create_part(name, fate);
        self.plan.end(given)
    }

    fn copy_access(&mut self, _name: Name, _from: &FakeFile, _to: &FakeFile) -> io::Result<()> {
        let fate = self.plan.begin();
        let given = fate.answer(());
        self.plan.end(given)
    }

    fn put_in_place(&mut self, name: Name) -> io::Result<()> {
        let fate = self.plan.begin();
        let given = self.history.put_in_place(name, fate);
        self.plan.end(given)
    }

    fn tick(&mut self) -> io::Result<()> {
        let given = self.history.tick();
        self.plan.end(given)
    }

    /// Says nothing.
    fn report(&self, _call: &str, _name: Option<Name>, _cause: &io::Error) {}
}
