//! A log file in a real folder: entries are staged, made durable together and read back, and a damaged byte is told with its place.

ghost use Rattle.std.specs.Prelude.{◌≡◌, ◌≤◌, ◌<◌, ◌^◌, ℕ, List, IsTrue};
ghost use Rattle.log_model.specs.Files.{Reads};

use anyhow::Result;
use disk_folder::{Access, FolderDisk};
use disk_images::{Disk, Name, NameKind};
use entry_frame::{Entry, encode_entry};
use kv_cell::{Batch, Cell, Kind};
use log_file::{DiskFault, LogFile, read_log};
use std::alloc::Global;

/// The file `log-1`. A log belongs to no region, so its region is 0.
pub const LOG: Name = Name {
    kind: NameKind::Log,
    region: 0,
    number: 1,
};

/// Stages the put of a person's name as edit `number` of region 1, at time 1000. `LogFile::stage` asks for bytes that spell an
/// entry of this file, and `encode_entry` promises such bytes: proofs/log/stage_name has the three lines that bring the two together.
pub fn stage_name(
    alloc: Global,
    log: &mut LogFile,
    number: u64,
    row: &[u8],
    name: &[u8],
) -> Result<()>
    requires region { log.old.name.region ≡ 0 }
    requires first { 1 ≤ number }
    requires last { number < 2 ^ 48 }
    ensures same { log.new.name ≡ log.old.name }
{
    let mut cells = Vec::new(alloc);
    let time = 1_700_000_000_000;
    cells.push(Cell::new(alloc, row, b"info", b"name", time, Kind::Put.code(), name)?)?;
    let batch = Batch::new(cells)?;
    let bytes = encode_entry(alloc, 1, number, 1000, &batch)?;
    log.stage(&bytes)?;
    Ok(())
}

fn print_entry<R: Print + AllocGlobal>(rt: &R, entry: &Entry) -> Result<()> {
    let number = entry.number;
    for cell in entry.batch.as_slice() {
        let row = String::from_utf8_lossy(rt.alloc(), cell.row.as_slice())?;
        let name = String::from_utf8_lossy(rt.alloc(), cell.value.as_slice())?;
        println!(rt; "edit {number}: {row} is {name}")?;
    }
    Ok(())
}

/// Prints what the file holds: its entries, or where it is damaged. The file is there, as far as the disk tells.
fn print_log<R: Print + AllocGlobal, D: Disk>(rt: &R, disk: &mut D, name: Name) -> Result<()>
    requires there { IsTrue D.told → ∥ ((c : List ℕ) × Reads (D.view disk.old).files name c) ∥₁ }
{
    match read_log(rt.alloc(), disk, name) {
        Ok(text) => {
            for entry in text.entries.as_slice() {
                print_entry(rt, entry)?;
            }
        }
        Err(refusal) => println!(rt; "{refusal}")?,
    }
    Ok(())
}

/// Prints what a log of two entries holds, before and after one of its bytes is damaged.
pub fn print_durable_entries(rt: &HostRuntime) -> Result<()> {
    let alloc = rt.alloc();
    // The folder `hwal-store`. It tells nothing of what it holds, so what clauses say of crashes holds of it as far as it
    // behaves as docs/MODEL.md says.
    let mut disk = FolderDisk::new(rt, alloc, Access::Writing);
    // Three disk calls. Until the last one a crash leaves no file, or one without entries.
    let mut log = LogFile::begin(alloc, &mut disk, LOG)?;
    stage_name(alloc, &mut log, 1, b"user1", b"Ann")?;
    stage_name(alloc, &mut log, 2, b"user2", b"Bob")?;
    // Four disk calls, however many entries are staged. A crash leaves none of them or both; after Ok, both.
    let count = log.commit(&mut disk)?;
    println!(rt; "{count} entries are durable")?;
    // A staged entry is in memory alone, so it isn't in the file.
    stage_name(alloc, &mut log, 3, b"user3", b"Cid")?;
    print_log(rt, &mut disk, LOG)?;
    // Byte 17 is the kind of the first frame, right after its gate at 16.
    disk.write_at(LOG, 17, b"?").map_err(DiskFault::from)?;
    print_log(rt, &mut disk, LOG)
}
