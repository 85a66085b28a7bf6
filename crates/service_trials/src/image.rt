//! What a crash leaves of one region, read back.

use crate::steps::LogRow;
use disk_fakes::MemDisk;
use disk_images::{Disk, Name, NameKind};
use entry_frame::Entry;
use kv_cell::Cell;
use log_file::{LogText, read_log};
use std::alloc::Global;
use store_file::{StoreText, read_store};

/// How many edits a script has at most.
const MOST: usize = 8;

/// The region that is put into: the last of sixteen.
const REGION: u32 = 16;

/// Which of the edits from 1 on the files of an image recover to, and up to which one they are flushed.
#[derive(Clone, Copy)]
struct Content {
    edits: [bool; MOST],
    flushed: u64,
}

impl Content {
    /// Takes note of an edit. None where it was not pushed.
    fn add(&mut self, number: u64) -> Option<()> {
        let place = number.wrapping_sub(1) as usize;
        *self.edits.get_mut(place)? = true;
        Some(())
    }

    /// Takes note of the edits of cells.
    fn add_cells(&mut self, cells: &[(u64, Cell)]) -> Option<()> {
        for (number, _) in cells {
            self.add(*number)?;
        }
        Some(())
    }

    /// Takes note of what a store file holds.
    fn add_store(&mut self, text: &StoreText) -> Option<()> {
        self.flushed = self.flushed.max(text.to);
        self.add_cells(text.cells.as_slice())
    }

    /// Takes note of the entries that no store covers.
    fn add_entries(&mut self, entries: &[Entry]) -> Option<()> {
        for entry in entries {
            if entry.number > self.flushed {
                self.add(entry.number)?;
            }
        }
        Some(())
    }

    /// Takes note of a file of this kind, where it is there.
    fn add_file(&mut self, alloc: Global, disk: &mut MemDisk, name: Name) -> Option<()> {
        disk.bytes(name)?;
        if name.kind == NameKind::Log {
            return self.add_entries(read_log(alloc, disk, name).ok()?.entries.as_slice());
        }
        match read_store(alloc, disk, name).ok()? {
            Some(text) => self.add_store(&text),
            None => Some(()),
        }
    }

    /// Takes note of the files of one kind among these.
    fn add_all(
        &mut self,
        alloc: Global,
        disk: &mut MemDisk,
        names: &[Name],
        kind: NameKind,
    ) -> Option<()> {
        for name in names {
            if name.kind == kind {
                self.add_file(alloc, disk, *name)?;
            }
        }
        Some(())
    }

    /// How many edits there are. None where one is there without one before it.
    fn count(&self) -> Option<u64> {
        let mut count: u64 = 0;
        for (place, is_there) in self.edits.iter().enumerate() {
            if *is_there {
                if place as u64 != count {
                    return None;
                }
                count = count.wrapping_add(1);
            }
        }
        Some(count)
    }
}

/// How many edits the files of these names recover to.
fn recovered_of(alloc: Global, disk: &mut MemDisk, names: &[Name]) -> Option<u64> {
    let mut content = Content {
        edits: [false; MOST],
        flushed: 0,
    };
    content.add_all(alloc, disk, names, NameKind::Store)?;
    content.add_all(alloc, disk, names, NameKind::Log)?;
    content.count()
}

/// How many edits the files of an image recover to.
fn recovered(alloc: Global, disk: &mut MemDisk) -> Option<u64> {
    let names = disk.names(alloc).ok()?;
    recovered_of(alloc, disk, names.as_slice())
}

/// How many edits a crash now leaves, by this choice.
fn left_by_crash(alloc: Global, disk: &MemDisk, choice: u64) -> Option<u64> {
    let mut image = disk.crash(alloc, disk.clock(), choice).ok()?;
    recovered(alloc, &mut image)
}

/// The fewest and the most edits that a crash now leaves. None where some image isn't a store of first edits.
pub(crate) fn left_by_crashes(alloc: Global, disk: &MemDisk) -> Option<(u64, u64)> {
    let mut fewest = u64::MAX;
    let mut most = 0;
    for choice in 0..4 {
        let count = left_by_crash(alloc, disk, choice)?;
        fewest = fewest.min(count);
        most = most.max(count);
    }
    Some((fewest, most))
}

/// Whether the entries of the region are those of the numbers `from` to `to`, without `to`, in their order.
fn are_numbers(entries: &[Entry], from: u64, to: u64) -> bool {
    let mut next = from;
    for entry in entries {
        if entry.region == REGION {
            if entry.number != next {
                return false;
            }
            next = next.wrapping_add(1);
        }
    }
    next == to
}

/// What a log holds that a crash now leaves by this choice. None where it isn't there.
fn left_log(alloc: Global, disk: &MemDisk, choice: u64, number: u64) -> Option<LogText> {
    let name = Name {
        kind: NameKind::Log,
        region: 0,
        number,
    };
    let mut image = disk.crash(alloc, disk.clock(), choice).ok()?;
    image.bytes(name)?;
    read_log(alloc, &mut image, name).ok()
}

/// Whether a log, by this choice, has of the region the entries that it has to have, in their order.
fn has_log(alloc: Global, disk: &MemDisk, choice: u64, row: LogRow) -> bool {
    let (number, from, to) = row;
    match left_log(alloc, disk, choice, number) {
        Some(text) => are_numbers(text.entries.as_slice(), from, to),
        None => false,
    }
}

/// Whether these logs have of the region the entries that they have to have.
pub(crate) fn has_logs(alloc: Global, disk: &MemDisk, choice: u64, rows: &[LogRow]) -> bool {
    for row in rows {
        if !has_log(alloc, disk, choice, *row) {
            return false;
        }
    }
    true
}

/// Whether these are of each region 1 to 16 the edits 1 to `last` in their order, and nothing else.
fn are_all(entries: &[Entry], last: u64) -> bool {
    let mut ends: [u64; 16] = [0; 16];
    for entry in entries {
        let place = entry.region.wrapping_sub(1) as usize;
        match ends.get_mut(place) {
            Some(end) if end.wrapping_add(1) == entry.number => *end = entry.number,
            _ => return false,
        }
    }
    ends == [last; 16]
}

/// Whether the first log has of each region 1 to 16 the edits 1 to `last` in their order, and nothing else.
pub(crate) fn has_all(alloc: Global, disk: &MemDisk, last: u64) -> bool {
    match left_log(alloc, disk, 0, 1) {
        Some(text) => are_all(text.entries.as_slice(), last),
        None => false,
    }
}
