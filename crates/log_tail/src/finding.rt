//! Which file counts as the log of a number.

ghost use Rattle.std.specs.Prelude.{◌≡◌, ◌<◌, ◌-◌, ◌^◌, ◌++◌, ◌∷◌, [], List, IsTrue, IfOk, IfErr, IsErrOf};
ghost use Rattle.log_model.specs.declared.name.Name.{Name as TheName};
ghost use Rattle.disk_images.specs.Calls.{HasCause, Looks};
ghost use Rattle.log_tail.specs.Failures.{IsFailure};
ghost use Rattle.log_tail.specs.Found.{HasFound, HasSeen, counted_name};

use crate::refusal::TailRefusal;
use disk_images::{Disk, Name, NameKind};
use std::alloc::Global;

/// The file that counts as the log of a number, and whether a log with a greater number is there.
#[derive(Clone, Copy, Debug)]
pub(crate) struct Found {
    pub(crate) name: Option<Name>,
    pub(crate) has_higher: bool,
}

/// Finds the file that counts as the log of a number: the log, or the old log where there is no such log.
pub(crate) fn find_log<D: Disk>(
    alloc: Global,
    disk: &mut D,
    number: u64,
) -> Result<Found, TailRefusal>
    ensures found { IsTrue D.told → IfOk result (λ found. HasFound (D.view disk.old).files number found) }
    ensures last { IfOk result (λ found. IsTrue found.has_higher → number < 2 ^ 64 - 1) }
    ensures looks { IsTrue D.told → Looks (D.view disk.old) (D.view disk.new) }
    ensures refused { IfErr result IsFailure }
    ensures cause { HasCause (D.faults disk.old) (D.faults disk.new) (IsErrOf result TailRefusal.DiskFault) }
{
    let names = disk.names(alloc)?;
    let seen = look_for(names.as_slice(), number);
    Ok(Found {
        name: seen.counted(number),
        has_higher: seen.has_higher,
    })
}

/// What was seen among the names of files: the log of a number, the old log of that number, a log or old log with a greater
/// number.
#[derive(Clone, Copy, Debug)]
struct Seen {
    has_log: bool,
    has_old: bool,
    has_higher: bool,
}

/// Looks through the names once.
fn look_for(names: &[Name], number: u64) -> Seen
    ensures seen { HasSeen names.now number result }
    ensures last { IsTrue result.has_higher → number < 2 ^ 64 - 1 }
{
    let mut seen = Seen {
        has_log: false,
        has_old: false,
        has_higher: false,
    };
    for name in names {
        seen.see(*name, number);
    }
    seen
}

impl Seen {
    /// Sees one more name.
    fn see(&mut self, name: Name, number: u64)
        ensures seen { (names : List TheName) → HasSeen names number self.old → HasSeen (names ++ name ∷ []) number self.new }
        ensures last { (IsTrue self.old.has_higher → number < 2 ^ 64 - 1) → IsTrue self.new.has_higher → number < 2 ^ 64 - 1 }
    {
        match name.kind {
            NameKind::Log => {
                self.has_log |= name.number == number;
                self.has_higher |= name.number > number;
            }
            NameKind::Old => {
                self.has_old |= name.number == number;
                self.has_higher |= name.number > number;
            }
            NameKind::Store | NameKind::Edits => (),
        }
    }

    /// The name that counts.
    fn counted(self, number: u64) -> Option<Name>
        ensures { result ≡ counted_name self number }
    {
        if self.has_log {
            return Some(name_of(NameKind::Log, number));
        }
        if self.has_old {
            return Some(name_of(NameKind::Old, number));
        }
        None
    }
}

fn name_of(kind: NameKind, number: u64) -> Name
    ensures { result ≡ record { kind = kind; region = 0; number = number } }
{
    Name {
        kind,
        region: 0,
        number,
    }
}
