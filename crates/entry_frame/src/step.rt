//! What comes next in the bytes of a file of which more may come.

ghost use Rattle.std.specs.Prelude.{◌≡◌, ◌++◌, ℕ, ◌<◌, ◌≤◌, ◌+◌, ◌^◌, List, length, take, slice_index, MatchOption};
ghost use Rattle.std.specs.List.{AllByRecursion};
ghost use Rattle.cell_model.specs.Cell.{number_at};
ghost use Rattle.log_model.specs.Entry.{Entry};
ghost use Rattle.log_model.specs.LogText.{IsEntryOf, in_version, IsVersion, header, IsHeader};
ghost use Rattle.entry_frame.specs.Feed.{key_of, passed};
ghost use Rattle.entry_frame.specs.Step.{IsAtGate, IsNext, IsWhole};

use crate::frame::{EntryRef, Frame};
use crate::phase::FileKey;
use crate::reading::next_frame;
use byteorder::{BigEndian, ByteOrder};
use kv_cell::u32_at;
use log_model::OPEN_GATE;

/// What a reader does next.
#[derive(Drop)]
pub(crate) enum Step<'a> {
    /// It takes this entry of a text of this version, 1 or 2, and goes so many bytes on.
    Entry {
        version: u32,
        entry: EntryRef<'a>,
        used: usize,
    },
    /// It stops: the text has ended.
    Ended(Option<u64>),
    /// It refuses at this offset.
    Damaged(u64),
    /// It waits for more bytes. Where none come, the text ends here, or is damaged at this offset.
    Wait(Option<u64>),
}

/// The header of a log or edits file as it is written: `HWL1`, version 2 and the number of its name.
pub fn file_header(number: u64) -> [u8; 16]
    ensures { result ≡ header 2 number }
{
    let mut bytes = [72, 87, 76, 49, 0, 0, 0, 2, 0, 0, 0, 0, 0, 0, 0, 0];
    BigEndian::write_u64(&mut bytes[8..], number);
    bytes
}

/// The header of a file of version 1.
fn former_header(number: u64) -> [u8; 16]
    ensures { result ≡ header 1 number }
{
    let mut bytes = [72, 87, 76, 49, 0, 0, 0, 1, 0, 0, 0, 0, 0, 0, 0, 0];
    BigEndian::write_u64(&mut bytes[8..], number);
    bytes
}

/// The version that the bytes' header tells, or None where they begin with no header of this number.
fn version_of(bytes: &[u8], number: u64) -> Option<u32>
    requires { 16 ≤ length bytes.now }
    ensures { MatchOption result (¬ IsHeader number (take 16 bytes.now)) (λ v. IsVersion v × (take 16 bytes.now ≡ header v number)) }
{
    if &bytes[..16] == file_header(number).as_slice() {
        return Some(2);
    }
    if &bytes[..16] == former_header(number).as_slice() {
        return Some(1);
    }
    None
}

/// What comes next after so many entries of a text of this version. The bytes begin at this offset; where there is no
/// entry they begin with the header, and the version is what that tells.
pub(crate) fn next_step(file: FileKey, version: u32, count: u64, at: u64, bytes: &[u8]) -> Step<'_>
    requires some { 0 < count → 0 < length bytes.now }
    requires known { IsVersion version }
    requires offset { at < 2 ^ 63 }
    ensures whole { IsWhole bytes.now result }
    ensures next { (given : List ℕ) (taken : List Entry) → count ≡ length taken → AllByRecursion (IsEntryOf (in_version version (key_of file))) taken
        → given ≡ passed (in_version version (key_of file)) taken ++ bytes.now → at ≡ length (passed (in_version version (key_of file)) taken)
        → IsNext (key_of file) bytes.now given taken result }
{
    if count > 0 {
        return step_at_gate(file, version, count, at, bytes);
    }
    if bytes.len() <= 17 {
        return Step::Wait(None);
    }
    let Some(version) = version_of(bytes, file.number) else {
        return Step::Damaged(0);
    };
    match step_at_gate(file, version, 0, 16, &bytes[16..]) {
        Step::Entry {
            version,
            entry,
            used,
        } => Step::Entry {
            version,
            entry,
            used: 16 + used,
        },
        other => other,
    }
}

/// What comes next at a gate after so many entries of the file, at this offset.
fn step_at_gate(file: FileKey, version: u32, count: u64, at: u64, bytes: &[u8]) -> Step<'_>
    requires { 0 < length bytes.now }
    ensures { IsAtGate (in_version version (key_of file)) count at bytes.now result }
{
    if bytes[0] != OPEN_GATE {
        return Step::Ended(None);
    }
    if bytes.len() < 7 {
        return Step::Wait(if bytes.len() == 1 { None } else { Some(at) });
    }
    let len = u32_at(bytes, 2) as usize;
    if len > 1_048_576 {
        return Step::Damaged(at);
    }
    if bytes.len() - 7 < len {
        return Step::Wait(Some(at));
    }
    step_at_frame(file, version, count, at, bytes)
}

/// The same where a whole frame and its next gate are there.
fn step_at_frame(file: FileKey, version: u32, count: u64, at: u64, bytes: &[u8]) -> Step<'_>
    requires gate { slice_index bytes.now 0 ≡ OPEN_GATE }
    requires whole { 7 + number_at 2 4 bytes.now ≤ length bytes.now }
    ensures { IsAtGate (in_version version (key_of file)) count at bytes.now result }
{
    match next_frame(bytes, 0) {
        Ok(Frame::Entry { entry, next }) => {
            if file.region != 0 && entry.region != file.region {
                return Step::Damaged(at);
            }
            if version == 1 && entry.kind != 1 {
                return Step::Damaged(at);
            }
            Step::Entry {
                version,
                entry,
                used: next,
            }
        }
        Ok(
            Frame::End {
                count: told,
                next: _,
            },
        ) => {
            if told != count {
                return Step::Damaged(at);
            }
            Step::Ended(Some(told))
        }
        Ok(Frame::Stop) => Step::Damaged(at),
        Err(_) => Step::Damaged(at),
    }
}
