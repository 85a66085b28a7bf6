//! Writing the puts of a script into log 1.

ghost use Rattle.std.specs.Prelude.{◌≡◌, ◌≢◌, ◌≤◌, ◌<◌, ◌+◌, ◌*◌, ◌^◌, ◌++◌, ◌⊎◌, ◌-◌, ◌∷◌, All, ℕ, List, [], map, length, IsTrue, IfOk, IsErr, OnOk, vec_len};
ghost use Rattle.std.specs.List.{AllByRecursion};
ghost use Rattle.log_model.specs.Entry.{Entry, IsEntry, entry_frame};
ghost use Rattle.log_model.specs.declared.name.Name.{Name as TheName};
ghost use Rattle.log_model.specs.Files.{Files, IsAbsent, SameBut};
ghost use Rattle.disk_images.specs.Crash.{IsImageNow, OnlyAt, Throughout};
ghost use Rattle.disk_images.specs.Calls.{Rose};
ghost use Rattle.script_model.specs.Calls.{IsScript, IsAmong};
ghost use Rattle.script_calls.specs.Calls.{call_of};
ghost use Rattle.log_file.specs.Open.{IsOpen, IsStaged, HasEither};
ghost use Rattle.command_base.specs.Invocation.{AtEachMoment};
ghost use Rattle.command_base.specs.LogFiles.{log_name};
ghost use Rattle.log_command.specs.Logged.{entries_from, entries_in, LogHolds, HasFirst, HasNone, IsAlone};
ghost use Rattle.log_command.specs.Writing.{IsBegun, IsStopped, IsWithin, WasOrFirst};
ghost use Rattle.log_command.specs.declared.writing.Written.TheVariants.{Nothing, Whole};

use command_base::LOG_1;
use disk_images::Disk;
use entry_frame::{EntryBytes, encode_entry};
use kv_cell::NoMemory;
use log_file::{DiskFault, LogFile, Stage};
use script_text::{Call, Script};
use std::alloc::Global;

/// What the writing needs, in memory before the disk is touched.
#[derive(Drop)]
pub struct Prepared {
    pub frames: Vec<EntryBytes>,
    pub stage: Stage,
}

/// How far the writing came.
#[derive(Clone, Copy, Debug, PartialEq, Eq)]
pub enum Written {
    /// The log was not begun.
    Nothing,
    /// So many puts were committed, and the disk failed in the next one.
    Stopped { done: usize },
    /// All puts were committed.
    Whole,
}

/// The frames of the script's puts, numbered from 1, and a stage.
pub fn prepare(alloc: Global, script: &Script) -> Result<Prepared, NoMemory>
    requires { IsScript script.now }
    ensures frames { IfOk result (λ prepared. prepared.frames.items ≡ map entry_frame (entries_in script.now)) }
    ensures entries { OnOk result (AllByRecursion IsEntry (entries_in script.now)) }
    ensures few { IfOk result (λ prepared. vec_len prepared.frames ≤ 268435456) }
{
    let mut frames = Vec::new(alloc);
    for calls in script.handlers.as_slice() {
        add_frames(alloc, script.time, &mut frames, calls.as_slice())?;
    }
    let stage = Stage::new(alloc)?;
    Ok(Prepared { frames, stage })
}

/// Adds the frames of one handler's puts.
fn add_frames(
    alloc: Global,
    time: u64,
    frames: &mut Vec<EntryBytes>,
    calls: &[Call],
) -> Result<(), NoMemory>
    requires time { time < 2 ^ 63 }
    requires calls { All (IsAmong 64) (map call_of calls.now) }
    requires room { vec_len frames.old + length calls.now < 2 ^ 48 - 1 }
    ensures frames { OnOk result (frames.new.items ≡ frames.old.items ++ map entry_frame (entries_from time (vec_len frames.old + 1) (map call_of calls.now))) }
    ensures entries { OnOk result (AllByRecursion IsEntry (entries_from time (vec_len frames.old + 1) (map call_of calls.now))) }
    ensures few { OnOk result (vec_len frames.new ≤ vec_len frames.old + length calls.now) }
{
    for call in calls {
        add_frame(alloc, time, frames, call)?;
    }
    Ok(())
}

/// Adds the frame of a put, numbered after those that are there. Other calls have none.
fn add_frame(
    alloc: Global,
    time: u64,
    frames: &mut Vec<EntryBytes>,
    call: &Call,
) -> Result<(), NoMemory>
    requires time { time < 2 ^ 63 }
    requires among { IsAmong 64 (call_of call.now) }
    requires room { vec_len frames.old < 2 ^ 48 - 1 }
    ensures frames { OnOk result (frames.new.items ≡ frames.old.items ++ map entry_frame (entries_from time (vec_len frames.old + 1) (call_of call.now ∷ []))) }
    ensures entries { OnOk result (AllByRecursion IsEntry (entries_from time (vec_len frames.old + 1) (call_of call.now ∷ []))) }
    ensures few { OnOk result (vec_len frames.new ≤ vec_len frames.old + 1) }
{
    match call {
        Call::Put { region, batch, .. } => {
            let number = frames.len() as u64 + 1;
            let frame = encode_entry(alloc, *region, number, time, batch)?;
            frames.push(frame)?;
            Ok(())
        }
        Call::Scan { .. } | Call::Get { .. } | Call::Flush { .. } | Call::Roll => Ok(()),
    }
}

/// Begins log 1 and commits each put in a batch of its own. The disk has no file.
pub fn write_log<D: Disk>(disk: &mut D, prepared: Prepared) -> Written
    requires empty { IsTrue D.told → (name : TheName) → IsAbsent (D.view disk.old).files name }
    requires entries { ∥ ((entries : List Entry) × (prepared.frames.items ≡ map entry_frame entries) × AllByRecursion IsEntry entries) ∥₁ }

    ensures whole { IsTrue D.told → result ≡ Whole → (entries : List Entry) → prepared.frames.items ≡ map entry_frame entries → AllByRecursion IsEntry entries
        → LogHolds (D.view disk.new).files entries × ((J : Files) → IsImageNow (D.view disk.new) J → LogHolds J entries) }
    ensures stopped { IsTrue D.told → (entries : List Entry) → prepared.frames.items ≡ map entry_frame entries → AllByRecursion IsEntry entries
        → IsStopped result (D.view disk.new) entries }
    ensures nothing { IsTrue D.told → result ≡ Nothing → (J : Files) → IsImageNow (D.view disk.new) J
        → IsImageNow (D.view disk.old) J ⊎ HasNone J }
    ensures alone { IsTrue D.told → result ≢ Nothing → (entries : List Entry) → prepared.frames.items ≡ map entry_frame entries → AllByRecursion IsEntry entries
        → (J : Files) → IsImageNow (D.view disk.new) J → IsAlone J }
    ensures others { IsTrue D.told → SameBut (log_name 1) (D.view disk.old).files (D.view disk.new).files }
    ensures within { IsWithin result (vec_len prepared.frames) }
    ensures any_moment { IsTrue D.told → (entries : List Entry) → prepared.frames.items ≡ map entry_frame entries → AllByRecursion IsEntry entries
        → AtEachMoment (WasOrFirst (D.view disk.old) entries) (D.view disk.old) (D.view disk.new) }
    ensures later { D.faults disk.old ≤ D.faults disk.new }
    ensures cause { result ≢ Whole → Rose (D.faults disk.old) (D.faults disk.new) }
{
    // A name that was removed before may come back after a crash: it is pinned as gone.
    let Ok(()) = disk.settle() else {
        return Written::Nothing;
    };
    // Until the file's sync a crash leaves it absent or without entries.
    let Ok(mut log) = LogFile::begin_with(disk, LOG_1, prepared.stage) else {
        return Written::Nothing;
    };
    commit_each(disk, &mut log, &prepared.frames)
}

/// Commits each entry in a batch of its own.
fn commit_each<D: Disk>(disk: &mut D, log: &mut LogFile, frames: &[EntryBytes]) -> Written
    requires begun { IsTrue D.told → IsBegun log.old (D.view disk.old) }
    requires named { log.old.name ≡ log_name 1 }
    requires empty { IsStaged log.old [] }
    requires entries { ∥ ((entries : List Entry) × (frames.now ≡ map entry_frame entries) × AllByRecursion IsEntry entries) ∥₁ }

    ensures whole { IsTrue D.told → result ≡ Whole → (entries : List Entry) → frames.now ≡ map entry_frame entries → AllByRecursion IsEntry entries
        → IsOpen log.new (D.view disk.new) entries }
    ensures stopped { IsTrue D.told → (entries : List Entry) → frames.now ≡ map entry_frame entries → AllByRecursion IsEntry entries
        → IsStopped result (D.view disk.new) entries }
    ensures within { IsWithin result (length frames.now) }
    ensures some { result ≢ Nothing }
    ensures name { log.new.name ≡ log.old.name }
    ensures others { IsTrue D.told → SameBut (log_name 1) (D.view disk.old).files (D.view disk.new).files }
    ensures any_moment { IsTrue D.told → (entries : List Entry) → frames.now ≡ map entry_frame entries → AllByRecursion IsEntry entries
        → ((J : Files) → IsImageNow (D.view disk.old) J → IsAlone J)
        → Throughout (HasFirst entries) (4 * length frames.now) (D.view disk.old) (D.view disk.new) }
    ensures later { D.faults disk.old ≤ D.faults disk.new }
    ensures cause { result ≢ Whole → Rose (D.faults disk.old) (D.faults disk.new) }
{
    for (done, frame) in frames.iter().enumerate() {
        match commit_one(disk, log, frame) {
            Ok(()) => {}
            Err(_) => return Written::Stopped { done },
        }
    }
    Written::Whole
}

/// Commits one entry in a batch of its own, by four disk calls.
fn commit_one<D: Disk>(disk: &mut D, log: &mut LogFile, frame: &EntryBytes) -> Result<(), DiskFault>
    requires begun { IsTrue D.told → ∥ ((entries : List Entry) × IsOpen log.old (D.view disk.old) entries) ∥₁ }
    requires empty { IsStaged log.old [] }
    requires named { log.old.name ≡ log_name 1 }
    requires entry { ∥ ((e : Entry) × (frame.now ≡ entry_frame e) × IsEntry e) ∥₁ }

    ensures committed { IsTrue D.told → (entries : List Entry) (e : Entry) → IsOpen log.old (D.view disk.old) entries → frame.now ≡ entry_frame e → IsEntry e
        → OnOk result (IsOpen log.new (D.view disk.new) (entries ++ e ∷ [])) }
    ensures any_moment { IsTrue D.told → (entries : List Entry) (e : Entry) → IsOpen log.old (D.view disk.old) entries → frame.now ≡ entry_frame e → IsEntry e
        → Throughout (OnlyAt (log_name 1) (HasEither (log_name 1) entries (entries ++ e ∷ [])) (D.view disk.old)) 4 (D.view disk.old) (D.view disk.new) }
    ensures empty { OnOk result (IsStaged log.new []) }
    ensures name { log.new.name ≡ log.old.name }
    ensures others { IsTrue D.told → SameBut (log_name 1) (D.view disk.old).files (D.view disk.new).files }
    ensures later { D.faults disk.old ≤ D.faults disk.new }
    ensures cause { IsErr result → Rose (D.faults disk.old) (D.faults disk.new) }
{
    // The stage is empty, and an entry fits it.
    match log.stage(frame) {
        Ok(()) => {}
        Err(_) => unreachable!(),
    }
    log.commit(disk)?;
    Ok(())
}
