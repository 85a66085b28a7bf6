//! A log file that is written.

ghost use Rattle.std.specs.Prelude.{◌≡◌, ◌≤◌, ◌<◌, ◌+◌, ◌^◌, ℕ, [], ◌∷◌, ◌++◌, List, length, IsTrue, IfOk, OnOk, OnErr, IsErr, IsErrOf, ◌↔◌};
ghost use Rattle.log_model.specs.Entry.{Entry, entry_frame};
ghost use Rattle.log_model.specs.LogText.{IsEntryOf, in_version};
ghost use Rattle.log_model.specs.Files.{IsAbsent, IsName, HoldsEntries, key_of};
ghost use Rattle.disk_images.specs.OneFile.{Touches};
ghost use Rattle.disk_images.specs.Calls.{HasCause};
ghost use Rattle.log_file.specs.Open.{IsOpen, IsStaged};
ghost use Rattle.log_file.specs.Calls.{Begins, IsSameFile, IsReadyToCommit, Commits, Finishes};

use crate::stage::{Stage, StageFull};
use crate::text::{end_text, new_text};
use disk_images::{Disk, Name, commit_behind_gate, create_durably};
use entry_frame::EntryBytes;
use file_base::{DiskFault, FileRefusal};
use std::alloc::Global;
use std::marker::Model;

/// A log file that is written: its next gate stands closed, and the stage's bytes go after it.
#[derive(Debug, Drop)]
pub struct LogFile {
    name: Name,
    gate: u64,
    entries: u64,
    stage: Stage,
    staged: u64,
}

impl Model for LogFile {
    ghost use Rattle.log_file.specs.Open.{OpenLog, IsBounded};

    ghost Value = { OpenLog };

    ghost view = { λ f. record { name = f.name; gate = f.gate; entries = f.entries; bytes = f.stage; staged = f.staged } };

    ghost invariant = { λ f. IsBounded (record { name = f.name; gate = f.gate; entries = f.entries; bytes = f.stage; staged = f.staged }) };
}

impl LogFile {
    /// Begins a file without entries, whose name is neither there nor gone. Memory is taken before the first disk call,
    /// of which there are three.
    pub fn begin<D: Disk>(alloc: Global, disk: &mut D, name: Name) -> Result<LogFile, FileRefusal>
        requires absent { IsTrue D.told → IsAbsent (D.view disk.old).files name × (¬ (D.view disk.old).gone name) }
        requires named { IsName name }
        requires kind { HoldsEntries name.kind }

        // What the disk and every crash image hold.
        ensures begins { IsTrue D.told → Begins name result (D.view disk.old) (D.view disk.new) }

        // What the writer holds.
        ensures name { IfOk result (λ log. log.name ≡ name) }
        ensures empty { IfOk result (λ log. (log.entries ≡ 0) × IsStaged log []) }

        // When it fails.
        ensures memory { IsErrOf result FileRefusal.Memory → disk.new ≡ disk.old }
        ensures cause { HasCause (D.faults disk.old) (D.faults disk.new) (IsErrOf result FileRefusal.DiskFault) }
    {
        let stage = Stage::new(alloc)?;
        let log = LogFile::begin_with(disk, name, stage)?;
        Ok(log)
    }

    /// Begins a file without entries, whose name is neither there nor gone, with a stage, which is emptied. It takes no
    /// memory, and makes three disk calls.
    pub fn begin_with<D: Disk>(disk: &mut D, name: Name, stage: Stage) -> Result<LogFile, DiskFault>
        requires absent { IsTrue D.told → IsAbsent (D.view disk.old).files name × (¬ (D.view disk.old).gone name) }
        requires named { IsName name }
        requires kind { HoldsEntries name.kind }

        // What the disk and every crash image hold.
        ensures begins { IsTrue D.told → Begins name result (D.view disk.old) (D.view disk.new) }

        // What the writer holds.
        ensures name { IfOk result (λ log. log.name ≡ name) }
        ensures empty { IfOk result (λ log. (log.entries ≡ 0) × IsStaged log []) }

        // When it fails.
        ensures cause { HasCause (D.faults disk.old) (D.faults disk.new) (IsErr result) }
    {
        // Until the sync a crash leaves no file, or one of at most these 17 bytes: either has no entries.
        create_durably(disk, name, &new_text(name.number))?;
        let mut stage = stage;
        stage.clear();
        Ok(LogFile {
            name,
            gate: 16,
            entries: 0,
            stage,
            staged: 0,
        })
    }

    /// Stages an entry that may stand in this file. It is refused exactly where the staged bytes, these and one gate byte
    /// pass 4,194,304; then nothing changes. It takes no memory, and makes no disk call.
    pub fn stage(&mut self, bytes: &EntryBytes) -> Result<(), StageFull>
        requires { ∥ ((e : Entry) × (bytes.now ≡ entry_frame e) × IsEntryOf (in_version 2 (key_of self.old.name)) e) ∥₁ }

        ensures staged { (batch : List Entry) (e : Entry) → IsStaged self.old batch → bytes.now ≡ entry_frame e
            → IsEntryOf (in_version 2 (key_of self.old.name)) e → OnOk result (IsStaged self.new (batch ++ e ∷ [])) }
        ensures counted { OnOk result (self.new.staged ≡ self.old.staged + 1) }
        ensures len { OnOk result (length self.new.bytes ≡ length self.old.bytes + length bytes.now + 1) }
        ensures same_file { IsSameFile self.old self.new }

        // When it fails.
        ensures full { IsErr result ↔ (4194304 < length self.old.bytes + length bytes.now + 1) }
        ensures same { OnErr result (self.new ≡ self.old) }
    {
        let frame = bytes.as_slice();
        if self.stage.is_full_for(frame.len()) {
            return Err(StageFull);
        }
        self.stage.add(frame);
        self.staged += 1;
        Ok(())
    }

    /// Makes the staged entries durable, all or none of them, and gives their number. It makes four disk calls, however
    /// many entries are staged, and none where there are none; it takes no memory. After a fault the file isn't to be
    /// used again.
    pub fn commit<D: Disk>(&mut self, disk: &mut D) -> Result<u64, DiskFault>
        requires { IsTrue D.told → IsReadyToCommit self.old (D.view disk.old) }

        // What the disk and every crash image hold.
        ensures commits { IsTrue D.told → (entries batch : List Entry) → IsOpen self.old (D.view disk.old) entries → IsStaged self.old batch
            → Commits entries batch result self.old self.new (D.view disk.old) (D.view disk.new) }
        ensures no_other_file { IsTrue D.told → Touches self.old.name (D.view disk.old) (D.view disk.new) }

        // What the writer holds.
        ensures stage_emptied { OnOk result (IsStaged self.new []) }
        ensures entries { OnOk result (self.new.entries ≡ self.old.entries + self.old.staged) }
        ensures same_name { self.new.name ≡ self.old.name }
        ensures returns_count { IfOk result (λ n. n ≡ self.old.staged) }

        // When it fails: where nothing is staged it makes no disk call, and does not fail.
        ensures nothing_staged { self.old.staged ≡ 0 → (disk.new ≡ disk.old) × (result ≡ Ok 0) }
        ensures cause { HasCause (D.faults disk.old) (D.faults disk.new) (IsErr result) }
    {
        let count = self.staged;
        if count == 0 {
            return Ok(0);
        }
        // Until the second sync a crash leaves the gate closed, or open with the whole batch after it, which is durable
        // by the first sync.
        commit_behind_gate(disk, self.name, self.gate, self.stage.as_slice())?;
        self.gate += self.stage.as_slice().len() as u64;
        self.entries += count;
        self.staged = 0;
        self.stage.clear();
        Ok(count)
    }

    /// Ends a file for which nothing is staged, and gives the number of its entries. It makes four disk calls, and takes
    /// no memory.
    pub fn finish<D: Disk>(self, disk: &mut D) -> Result<u64, DiskFault>
        requires open { IsTrue D.told → ∥ ((entries : List Entry) × IsOpen self (D.view disk.old) entries) ∥₁ }
        requires idle { self.staged ≡ 0 }

        // What the disk and every crash image hold.
        ensures finishes { IsTrue D.told → (entries : List Entry) → IsOpen self (D.view disk.old) entries
            → Finishes entries result self (D.view disk.old) (D.view disk.new) }
        ensures no_other_file { IsTrue D.told → Touches self.name (D.view disk.old) (D.view disk.new) }
        ensures returns_count { IfOk result (λ n. n ≡ self.entries) }

        // When it fails.
        ensures cause { HasCause (D.faults disk.old) (D.faults disk.new) (IsErr result) }
    {
        // The end frame goes after the gate as a batch of one.
        commit_behind_gate(disk, self.name, self.gate, &end_text(self.entries))?;
        Ok(self.entries)
    }

    /// How many entries are committed.
    pub fn entries(&self) -> u64
        ensures { result ≡ self.now.entries }
    {
        self.entries
    }

    /// How many entries are staged.
    pub fn staged(&self) -> u64
        ensures { result ≡ self.now.staged }
    {
        self.staged
    }

    /// The name of the file.
    pub fn name(&self) -> Name
        ensures { result ≡ self.now.name }
    {
        self.name
    }
}
