//! One reading of a tail.

ghost use Rattle.std.specs.Prelude.{◌≡◌, ◌+◌, ◌<◌, ◌^◌, [], true, length, IsTrue, IsErr, IsErrOf, IfOk};
ghost use Rattle.disk_images.specs.Calls.{HasCause};
ghost use Rattle.log_tail.specs.Position.{position_of};
ghost use Rattle.log_tail.specs.Reads.{IsRead, OnlyReads, placed_behind};
ghost use Rattle.ship_queue.specs.Course.{HasReadOn, IsAtEnd, IsRefusedAt};

use disk_images::Disk;
use log_file::EntryList;
use log_tail::{Position, Tail, TailRefusal, reading_goes_on};
use std::alloc::Global;

/// What stood after a position in its log.
#[derive(Drop)]
pub(crate) struct Reading {
    pub(crate) at: Position,
    pub(crate) entries: EntryList,
    /// Nothing stood there, and the tail didn't move: there is no more.
    pub(crate) is_last: bool,
}

/// Reads what stands after the tail's position in its log.
pub(crate) fn read_next<D: Disk>(
    alloc: Global,
    tail: &mut Tail,
    disk: &mut D,
) -> Result<Reading, TailRefusal>
    ensures read { IsTrue D.told
        → IfOk result (λ r. HasReadOn (D.view disk.old).files tail.old tail.new (placed_behind r.at.file r.at.entries r.entries)) }
    ensures reads { IsTrue D.told → IfOk result (λ r. IsRead (D.view disk.old).files tail.old r.entries tail.new) }
    ensures last { IsTrue D.told → IfOk result (λ r. r.is_last ≡ true → IsAtEnd (D.view disk.old).files tail.new) }
    ensures none { IfOk result (λ r. r.is_last ≡ true → r.entries ≡ []) }
    ensures stays { IfOk result (λ r. r.is_last ≡ true → tail.new ≡ tail.old) }
    ensures places { IfOk result (λ r. r.at.entries + length r.entries < 2 ^ 64) }
    ensures same { IsErr result → tail.new ≡ tail.old }
    ensures refused { IsTrue D.told → IsRefusedAt (D.view disk.old).files tail.old result }
    ensures looks { IsTrue D.told → OnlyReads (D.view disk.old) (D.view disk.new) }
    ensures cause { HasCause (D.faults disk.old) (D.faults disk.new) (IsErrOf result TailRefusal.DiskFault) }
{
    reading_goes_on();
    let at = tail.position();
    let entries = tail.read(alloc, disk)?;
    let now = tail.position();
    let is_last = has_stayed(at, now, &entries);
    Ok(Reading {
        at,
        entries,
        is_last,
    })
}

/// Whether nothing was given, and the tail stands where it stood.
fn has_stayed(at: Position, now: Position, entries: &EntryList) -> bool
    ensures { result ≡ true → (entries.now ≡ []) × (position_of now ≡ position_of at) }
{
    entries.as_slice().is_empty() && now == at
}
