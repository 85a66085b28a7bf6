//! One handler puts three cells in two edits, and another one reads the region before, between and after them. What they are answered
//! is told at once, so that a call that ends early has little to drop.

ghost use Rattle.std.specs.Prelude.{◌≡◌, ◌≤◌, ◌<◌};
ghost use Rattle.region_calls.specs.Passes.{knows, IsPassOf};

use crate::cells::batch_of;
use crate::name::ServerName;
use crate::telling::{tell_number, tell_page, tell_pages, tell_rows};
use disk_images::Disk;
use kv_cell::{Durability, NoMemory};
use region_calls::{FreeGate, Pass, ScanReply, Scanner, Server};
use std::alloc::Global;
use std::sync::Wait;

/// What a reader asks for: the region's point, all its cells, or these in pages of two, up to one after the last.
#[derive(Clone, Copy)]
enum Look {
    Point,
    Scan,
    Pages,
}

/// Puts a cell into each of these rows, and tells its sequence id. None where the put was refused, or memory.
fn put<N: ServerName, R: Wait, D: Disk>(
    rt: &R,
    alloc: Global,
    server: &Server<'_, D, N, R>,
    pass: &mut Pass<N>,
    call: u32,
    rows: &[u8],
    told: &mut Vec<u8>,
) -> Option<()>
    requires of { IsPassOf server.now pass.old }
    requires region { 1 ≤ N.name.regions }
    requires call { (knows pass.old).calls < call }
    ensures of { IsPassOf server.now pass.new }
    ensures calls { (knows pass.new).calls ≤ call }
{
    let batch = batch_of(alloc, rows)?;
    let sync = Durability::Sync;
    let answer = server.put(rt, alloc, pass, 1, call, 1000, sync, batch, &FreeGate);
    tell_number(told, answer.ok()?)
}

/// Tells the cells of a reply.
fn tell_reply(told: &mut Vec<u8>, reply: Result<ScanReply, NoMemory>) -> Option<()> {
    match reply {
        Ok(reply) => tell_rows(told, reply.cells.as_slice()),
        Err(_) => None,
    }
}

/// Asks for this, and tells it.
fn ask_for<N: ServerName, R: Wait, D: Disk>(
    alloc: Global,
    server: &Server<'_, D, N, R>,
    pass: &mut Pass<N>,
    told: &mut Vec<u8>,
    look: Look,
) -> Option<()>
    requires of { IsPassOf server.now pass.old }
    requires region { 1 ≤ N.name.regions }
    ensures of { IsPassOf server.now pass.new }
{
    match look {
        Look::Point => tell_number(told, server.read_point(pass, 1)),
        Look::Scan => tell_reply(told, server.scan(alloc, pass, 1, b"", b"")),
        Look::Pages => tell_pages(alloc, told, server.begin_scan(alloc, pass, 1, b"", b"")),
    }
}

/// Puts the row `b` once a scan has given its first cell, and reads on.
fn put_beside<N: ServerName, R: Wait, D: Disk>(
    rt: &R,
    alloc: Global,
    server: &Server<'_, D, N, R>,
    writer: &mut Pass<N>,
    early: &mut Scanner,
    told: &mut Vec<u8>,
) -> Option<()>
    requires of { IsPassOf server.now writer.old }
    requires region { 1 ≤ N.name.regions }
    requires calls { (knows writer.old).calls ≤ 1 }
    ensures of { IsPassOf server.now writer.new }
{
    tell_page(alloc, told, early, 1)?;
    put(rt, alloc, server, writer, 2, b"b", told)?;
    tell_page(alloc, told, early, 2)
}

/// Begins a scan, and puts the row `b` beside it.
fn scan_beside<N: ServerName, R: Wait, D: Disk>(
    rt: &R,
    alloc: Global,
    server: &Server<'_, D, N, R>,
    writer: &mut Pass<N>,
    reader: &mut Pass<N>,
    told: &mut Vec<u8>,
) -> Option<()>
    requires of { IsPassOf server.now writer.old × IsPassOf server.now reader.old }
    requires region { 1 ≤ N.name.regions }
    requires calls { (knows writer.old).calls ≤ 1 }
    ensures of { IsPassOf server.now writer.new × IsPassOf server.now reader.new }
{
    match server.begin_scan(alloc, reader, 1, b"", b"") {
        Ok(mut early) => put_beside(rt, alloc, server, writer, &mut early, told),
        Err(_) => None,
    }
}

/// One handler puts the rows `a` and `c`, and then `b`, which lies between them. Its reader has viewed nothing when it first asks for the
/// point. A scan is begun between the puts, and all of it but its first cell is read after the second.
pub(crate) fn ask<N: ServerName, R: Wait, D: Disk>(
    rt: &R,
    alloc: Global,
    server: &Server<'_, D, N, R>,
    writer: &mut Pass<N>,
    reader: &mut Pass<N>,
    told: &mut Vec<u8>,
) -> Option<()>
    requires of { IsPassOf server.now writer.old × IsPassOf server.now reader.old }
    requires region { 1 ≤ N.name.regions }
    requires fresh { (knows writer.old).calls ≡ 0 }
    ensures of { IsPassOf server.now writer.new × IsPassOf server.now reader.new }
{
    ask_for(alloc, server, reader, told, Look::Point)?;
    put(rt, alloc, server, writer, 1, b"ac", told)?;
    ask_for(alloc, server, reader, told, Look::Point)?;
    ask_for(alloc, server, reader, told, Look::Scan)?;
    scan_beside(rt, alloc, server, writer, reader, told)?;
    ask_for(alloc, server, reader, told, Look::Pages)?;
    ask_for(alloc, server, reader, told, Look::Point)?;
    ask_for(alloc, server, reader, told, Look::Scan)
}
