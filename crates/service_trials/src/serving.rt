//! A server of one region and two handlers, from its opening to its close.

ghost use Rattle.std.specs.Prelude.{◌≡◌, ◌≤◌, length};
ghost use Rattle.region_calls.specs.Names.{IsNameOf};
ghost use Rattle.region_calls.specs.Store.{IsStore, handlers_of};

use crate::asking::ask;
use crate::name::ServerName;
use crate::telling::tell_closed;
use disk_fakes::MemDisk;
use disk_images::Disk;
use region_calls::{ClosedServer, OpenedStore, StartRefusal, Started, open};
use std::alloc::Global;
use std::marker::Brand;
use std::sync::Wait;
use std::test::*;

/// Has the handlers ask, closes the server, and tells what is left. None where it was out of memory.
fn serve<N: ServerName, R: Wait, D: Disk + Drop>(
    rt: &R,
    alloc: Global,
    opened: OpenedStore<D>,
    told: &mut Vec<u8>,
) -> Option<()>
    requires few { handlers_of opened ≡ 2 }
    requires regions_there { 1 ≤ length N.lasts }
    // The name is the store's.
    requires store { IsStore D.Disk opened }
    requires name { IsNameOf D.Disk N.ServerNaming N.LockNaming N.ServiceNaming N.VersionsNaming opened }
{
    let (server, mut passes, helpers) = match opened.named::<N, R>(rt, alloc) {
        Ok(
            Started {
                server,
                passes,
                helpers,
            },
        ) => (server, passes, helpers),
        Err(
            StartRefusal {
                why: _,
                disk: _disk,
            },
        ) => return None,
    };
    let Some(mut writer) = passes.next() else {
        unreachable!()
    };
    let Some(mut reader) = passes.next() else {
        unreachable!()
    };
    let asked = ask(rt, alloc, &server, &mut writer, &mut reader, told);
    passes.put_back(writer);
    passes.put_back(reader);
    match server.close(rt, alloc, passes, helpers) {
        Ok(
            ClosedServer {
                disk: _disk,
                regions,
                broken,
            },
        ) => asked.and(tell_closed(told, regions.as_slice(), broken)),
        Err(refusal) => {
            let _disk = refusal.into_disk(rt);
            None
        }
    }
}

/// Opens a disk for one region and two handlers, and serves it. None where it was out of memory, or the disk failed.
fn open_and_serve<R: Wait, D: Disk + Drop>(
    rt: &R,
    alloc: Global,
    disk: D,
    told: &mut Vec<u8>,
) -> Option<()> {
    match open(alloc, disk, 1, 2) {
        Ok(opened) => serve::<Brand, R, D>(rt, alloc, opened, told),
        Err(
            StartRefusal {
                why: _,
                disk: _disk,
            },
        ) => None,
    }
}

/// The points are 0, 1 and 2, and the puts get the sequence ids 1 and 2. The scan that was begun between them never shows `b`; the one
/// begun after both does, in pages and at once; a page after its last has no cell. Both edits are left, durable, in a log that is whole.
#[test]
fn a_scan_in_pages_keeps_its_point(rt: HostRuntime) -> Result<(), Fail> {
    let alloc = rt.alloc();
    let disk = MemDisk::new(alloc, &[])?;
    let mut told = Vec::new(alloc);
    open_and_serve(&rt, alloc, disk, &mut told).ok_or("memory is ample")?;
    assert!(rt; told.as_slice() == b"0 1 1 1a1c 1a| 2 1c. 1a2b| 1c. . 2 1a2b1c 2 2 .".as_slice());
    Ok(())
}
