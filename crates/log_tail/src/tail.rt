//! A tail of a store's logs.

ghost use Rattle.std.specs.Prelude.{◌≡◌, ◌+◌, ◌-◌, ◌<◌, ◌^◌, ℕ, [], length, false, IsTrue, IsErr, IfOk, IfErr, OnOk, IsErrOf};
ghost use Rattle.log_model.specs.declared.name.Name.{Name as TheName};
ghost use Rattle.disk_images.specs.Calls.{HasCause};
ghost use Rattle.log_tail.specs.Position.{position_of};
ghost use Rattle.log_tail.specs.Given.{IsGiven, IsTooFar, IsNowhere, next_position};
ghost use Rattle.log_tail.specs.Reads.{IsRead, IsDamagedAt, IsNoPosition, IsOrEarlier, OnlyReads};

use crate::finding::find_log;
use crate::position::Position;
use crate::reading::read_counted;
use crate::refusal::TailRefusal;
use disk_images::{Disk, Name};
use log_file::{EntryList, LogText};
use std::alloc::Global;
use std::marker::Model;

/// A reader of a store's logs, seen as its position.
#[derive(Debug, Drop)]
pub struct Tail {
    position: Position,
}

impl Model for Tail {
    ghost use Rattle.chronicle_model.specs.Chronicle.{Position as ThePosition};
    ghost use Rattle.log_tail.specs.Position.{position_of};

    ghost Value = { ThePosition };

    ghost view = { λ t. position_of t.position };
}

impl Tail {
    /// A tail that reads from this position on.
    pub fn at(position: Position) -> Tail
        ensures { result ≡ position_of position }
    {
        Tail { position }
    }

    /// Where it reads on.
    pub fn position(&self) -> Position
        ensures { position_of result ≡ self.now }
    {
        self.position
    }

    /// Reads the entries of the position's log that stand after the position, and goes on after them: to the next log where
    /// this one has its end frame or a log with a greater number is there. A log that isn't there yet has no entries. Memory
    /// is taken for the names of all files and for the whole log.
    pub fn read<D: Disk>(&mut self, alloc: Global, disk: &mut D) -> Result<EntryList, TailRefusal>
        // What is read, and where the tail stops.
        ensures reads { IsTrue D.told → IfOk result (λ given. IsRead (D.view disk.old).files self.old given self.new) }
        ensures counted { IfOk result (λ given. self.old.entries + length given < 2 ^ 64) }
        ensures looks { IsTrue D.told → OnlyReads (D.view disk.old) (D.view disk.new) }

        // When it fails: damage, and a position that is none, are told exactly where they are.
        ensures same { IsErr result → self.new ≡ self.old }
        ensures damaged { IsTrue D.told → (name : TheName) (at : ℕ) → result ≡ Err (TailRefusal.Damaged name at)
            → IsDamagedAt (D.view disk.old).files self.old.file name at }
        ensures damage { IsTrue D.told → (name : TheName) (at : ℕ) → IsDamagedAt (D.view disk.old).files self.old.file name at
            → IsOrEarlier result (TailRefusal.Damaged name at) }
        ensures no_position { IsTrue D.told → (file has : ℕ) → result ≡ Err (TailRefusal.NoPosition file has)
            → IsNoPosition (D.view disk.old).files self.old file has }
        ensures out { IsTrue D.told → (file has : ℕ) → IsNoPosition (D.view disk.old).files self.old file has
            → IsOrEarlier result (TailRefusal.NoPosition file has) }
        ensures cause { HasCause (D.faults disk.old) (D.faults disk.new) (IsErrOf result TailRefusal.DiskFault) }
    {
        let found = find_log(alloc, disk, self.position.file)?;
        match found.name {
            Some(name) => match read_counted(alloc, disk, name) {
                Ok(text) => self.give(text, found.has_higher),
                Err(e) => Err(e),
            },
            None => self.wait(alloc, found.has_higher),
        }
    }

    /// Gives the entries after the position, of a log that was read, and goes on after them.
    fn give(&mut self, text: LogText, has_higher: bool) -> Result<EntryList, TailRefusal>
        requires { IsTrue has_higher → self.old.file < 2 ^ 64 - 1 }
        ensures given { IfOk result (λ given. IsGiven self.old text.entries given) }
        ensures counted { IfOk result (λ given. self.old.entries + length given < 2 ^ 64) }
        ensures goes { OnOk result (self.new ≡ next_position self.old (length text.entries) text.ended has_higher) }
        ensures refused { IfErr result (λ e. IsTooFar self.old (length text.entries) e) }
        ensures same { IsErr result → self.new ≡ self.old }
    {
        let mut entries = text.entries.into_vec();
        let has = entries.len() as u64;
        if has < self.position.entries {
            return Err(TailRefusal::NoPosition {
                file: self.position.file,
                has,
            });
        }
        entries.drain(..self.position.entries as usize);
        let is_over = has_higher || (text.ended.is_some() && self.position.file < u64::MAX);
        self.position = if is_over {
            Position {
                file: self.position.file + 1,
                entries: 0,
            }
        } else {
            Position {
                file: self.position.file,
                entries: has,
            }
        };
        Ok(EntryList::of(entries))
    }

    /// Gives nothing, as there is no log of the position's number yet, and stays.
    fn wait(&self, alloc: Global, has_higher: bool) -> Result<EntryList, TailRefusal>
        ensures given { IfOk result (λ given. (given ≡ []) × (self.now.entries ≡ 0) × (has_higher ≡ false)) }
        ensures refused { IfErr result (λ e. IsNowhere self.now has_higher e) }
    {
        if has_higher || self.position.entries > 0 {
            return Err(TailRefusal::NoPosition {
                file: self.position.file,
                has: 0,
            });
        }
        Ok(EntryList::of(Vec::new(alloc)))
    }
}
