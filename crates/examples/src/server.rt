//! Example of a whole server: two clerks, each a handler in a thread of its own, put a person into one region, scan it and
//! flush it. Then the machine stops, and what a crash leaves of the disk is opened again: a reader finds both persons.

ghost use Rattle.std.specs.Prelude.{◌≡◌, ◌≤◌, vec_len, IfOk};
ghost use Rattle.disk_fakes.specs.Views.{view_of};
ghost use Rattle.examples.specs.Clerks.{AreThereForGood};

use crate::clerk::Clerk;
use crate::reader::Reader;
use anyhow::{Result, bail};
use disk_fakes::MemDisk;
use embedded_run::{Outcome, run_handlers};
use std::alloc::Global;
use std::sync::Wait;
use std::thread::Threads;

/// Two clerks, with a person each.
fn two_clerks(alloc: Global) -> Result<Vec<Clerk>>
    ensures { IfOk result (λ clerks. vec_len clerks ≡ 2) }
{
    let mut clerks = Vec::new(alloc);
    clerks.push(Clerk::new(alloc, b"user1", b"Ann"))?;
    clerks.push(Clerk::new(alloc, b"user2", b"Bob"))?;
    Ok(clerks)
}

/// One reader.
fn one_reader(alloc: Global) -> Result<Vec<Reader>>
    ensures { IfOk result (λ readers. vec_len readers ≡ 1) }
{
    let mut readers = Vec::new(alloc);
    readers.push(Reader::new(alloc))?;
    Ok(readers)
}

/// Lets clerks work on one region of this disk, each in a thread of its own. Each person whose clerk then calls the put
/// acknowledged is there for good: whatever a crash leaves of the disk is opened with that person. So much follows from what a
/// clerk promises (`did` in clerk.rt) and from what `run_handlers` does (proofs/server/serve_clerks).
fn serve_clerks<R: Threads + Wait + Sync>(
    rt: &R,
    alloc: Global,
    disk: MemDisk,
    clerks: Vec<Clerk>,
) -> Result<(MemDisk, Vec<Clerk>)>
    requires clerks { (1 ≤ vec_len clerks) × (vec_len clerks ≤ 16) }
    ensures for_good { IfOk result (λ left. AreThereForGood (view_of left.0) left.1.items) }
{
    // Their puts are dated 1000. The server has one region.
    match run_handlers(rt, alloc, disk, 1000, 1, clerks) {
        Outcome::Closed { disk, handlers, .. } => Ok((disk, handlers)),
        Outcome::Unclosed { .. } => bail!("out of memory"),
        Outcome::Unopened { .. } => bail!("the store could not be opened"),
    }
}

/// Lets the clerks work, stops, and lets a reader read what is left.
pub fn print_persons<R: Threads + Wait + Sync + Print + AllocGlobal>(rt: &R) -> Result<()> {
    let alloc = rt.alloc();
    // A disk in memory, which can show what a crash leaves. `disk_folder::FolderDisk` is a folder.
    let disk = MemDisk::new(alloc, &[])?;
    let (disk, clerks) = serve_clerks(rt, alloc, disk, two_clerks(alloc)?)?;
    // Which clerk's put comes first is free, so no sequence id is printed.
    for clerk in clerks {
        clerk.print(rt)?;
    }
    // What a crash leaves at the last moment, where each call is lost that no sync has made durable.
    let image = disk.crash(alloc, disk.clock(), 1)?;
    let Outcome::Closed { handlers, .. } = run_handlers(
        rt,
        alloc,
        image,
        2000,
        1,
        one_reader(alloc)?,
    ) else {
        bail!("the image could not be opened");
    };
    for reader in handlers {
        reader.print(rt)?;
    }
    Ok(())
}
