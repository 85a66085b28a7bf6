//! A log file over a disk of one's own: the log knows its disk by the trait `Disk` alone, so it can be kept in memory, or in
//! whatever else has files. Here the disk gets full, and the log says so.

use crate::disk::VecDisk;
use crate::log::{LOG, stage_name};
use anyhow::Result;
use log_file::{LogFile, read_log};

/// Prints what becomes of an entry for which the disk has no room, and what the log then holds.
pub fn print_full_disk(rt: &HostRuntime) -> Result<()> {
    let alloc = rt.alloc();
    let mut disk = VecDisk::new(alloc, 100);
    let mut log = LogFile::begin(alloc, &mut disk, LOG)?;
    stage_name(alloc, &mut log, 1, b"user1", b"Ann")?;
    log.commit(&mut disk)?;
    stage_name(
        alloc,
        &mut log,
        2,
        b"user2",
        b"a name for which there is no room",
    )?;
    // After a fault the file is read again, and not used any more.
    match log.commit(&mut disk) {
        Ok(_) => println!(rt; "edit 2 is durable")?,
        Err(fault) => println!(rt; "edit 2: {fault}")?,
    }
    let text = read_log(alloc, &mut disk, LOG)?;
    for entry in text.entries.as_slice() {
        let number = entry.number;
        println!(rt; "edit {number} stands")?;
    }
    Ok(())
}
