// A call of a disk with fixed room, whose bytes stand in the disk's own memory.
ghost use Rattle.std.specs.Prelude.{◌≡◌, ◌≢◌, ◌<◌, ◌≤◌, ◌+◌, ℕ, List, length, OnOk, IsTrue, false};
ghost use Rattle.log_model.specs.Files.{Files, Reads, content};
ghost use Rattle.disk_fakes.specs.Table.{files_in};
ghost use Rattle.disk_fakes.specs.Safe.{applied, Met, text_in, size_with, size_by, IsByteStep};

use crate::table::FileTable;
use disk_images::Name;
use std::alloc::AllocError;

#[derive(Clone, Copy)]
pub enum SafeCall {
    Create(Name),
    // a file, an offset in it, and where the bytes stand in memory, and how many
    Write(Name, u64, usize, usize),
    Rename(Name, Name),
    Remove(Name),
}

/// A file's size after a call: known, or that of a file before the call, if it doesn't reach less far.
#[derive(Clone, Copy)]
pub enum SizeStep {
    Is(u64),
    NotThere,
    Before(Name, u64),
}

/// A file's byte after a call: in memory, so far behind a place, or the byte of a file before the call.
#[derive(Clone, Copy)]
pub enum ByteStep {
    At(usize, usize),
    Before(Name),
}

fn is_same(a: Name, b: Name) -> bool
    ensures same { IsTrue result → a ≡ b }
    ensures other { result ≡ false → a ≢ b }
{
    a == b
}

/// The size of a file that reaches at least so far.
pub fn size_step(call: SafeCall, name: Name, reach: u64) -> SizeStep
    ensures { (arena : List ℕ) (files : Files) → Met arena files call → size_with (content (applied arena files call) name) reach ≡ size_by files result }
{
    match call {
        SafeCall::Create(made) => {
            if is_same(made, name) {
                SizeStep::Is(reach)
            } else {
                SizeStep::Before(name, reach)
            }
        }
        SafeCall::Write(written, at, _, len) => {
            if is_same(written, name) {
                SizeStep::Before(name, reach.max(at.saturating_add(len as u64)))
            } else {
                SizeStep::Before(name, reach)
            }
        }
        SafeCall::Rename(from, to) => {
            if is_same(to, name) {
                SizeStep::Before(from, reach)
            } else if is_same(from, name) {
                SizeStep::NotThere
            } else {
                SizeStep::Before(name, reach)
            }
        }
        SafeCall::Remove(gone) => {
            if is_same(gone, name) {
                SizeStep::NotThere
            } else {
                SizeStep::Before(name, reach)
            }
        }
    }
}

/// Where a byte of a file comes from.
pub fn byte_step(call: SafeCall, name: Name, place: u64) -> ByteStep
    ensures { (arena : List ℕ) (files : Files) (text : List ℕ) → Met arena files call → Reads (applied arena files call) name text
        → place < length text → IsByteStep arena files text place result }
{
    match call {
        SafeCall::Write(written, at, start, len) => {
            if !is_same(written, name) {
                ByteStep::Before(name)
            } else if place < at {
                ByteStep::Before(name)
            } else if len as u64 <= place - at {
                ByteStep::Before(name)
            } else {
                ByteStep::At(start, (place - at) as usize)
            }
        }
        SafeCall::Rename(from, to) => {
            if is_same(to, name) {
                ByteStep::Before(from)
            } else {
                ByteStep::Before(name)
            }
        }
        SafeCall::Create(_) => ByteStep::Before(name),
        SafeCall::Remove(_) => ByteStep::Before(name),
    }
}

/// Does the call on a table of files.
pub fn replay(table: &mut FileTable, call: SafeCall, arena: &[u8]) -> Result<(), AllocError>
    requires { Met arena.now (files_in table.old) call }
    ensures { OnOk result (files_in table.new ≡ applied arena.now (files_in table.old) call) }
{
    match call {
        SafeCall::Create(name) => {
            let alloc = table.alloc;
            table.put(name, Vec::new(alloc))
        }
        SafeCall::Write(name, at, start, len) => {
            table.overwrite(name, at as usize, part(arena, start, len))
        }
        SafeCall::Rename(from, to) => {
            let copy = table.copy(from)?;
            table.put(to, copy)?;
            table.remove(from);
            Ok(())
        }
        SafeCall::Remove(name) => {
            table.remove(name);
            Ok(())
        }
    }
}

fn part(arena: &[u8], start: usize, len: usize) -> &[u8]
    requires { start + len ≤ length arena.now }
    ensures { result.now ≡ text_in arena.now start len }
{
    &arena[start..start + len]
}
