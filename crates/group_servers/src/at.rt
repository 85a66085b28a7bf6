//! Calls of a group's server, where it is there.

ghost use Rattle.std.specs.Prelude.{◌≢◌, ◌≤◌, ◌<◌, ◌^◌, None, IfSome, length, Contains};
ghost use Rattle.std.specs.Option.{option_map};
ghost use Rattle.region_model.specs.Calls.{Raw};
ghost use Rattle.server_model.specs.Steps.{Puts, Scans, Flushes, Rolls};
ghost use Rattle.handler_threads.specs.region_calls.Answers.{is_sync, put_answer, scan_answer, flush_answer, roll_answer};
ghost use Rattle.handler_threads.specs.log_service.Places.{IsSeatOf};
ghost use Rattle.handler_threads.specs.region_lock.Puts.{IsFaultExact};
ghost use Rattle.handler_threads.specs.region_calls.Passes.{knows, IsPassOf};
ghost use Rattle.group_servers.specs.Passes.{known_by, call_by, IsPassAt, IsExactAt, Looks};
ghost use Rattle.group_servers.specs.Helping.{IsSeatAt, HasHelped};

use disk_images::Disk;
use handler_threads::ServerName;
use handler_threads::region_calls::{
    FlushRefusal, Gate, Helped, LogSeat, Pass, PutRefusal, RollRefusal, Rolled, ScanReply, Server,
};
use kv_cell::{Batch, Durability, NoMemory};
use std::alloc::Global;
use std::sync::Wait;

/// A put: of which region, the how-many-th call of its handler, at which time in milliseconds, how durable, and of which cells.
#[derive(Drop)]
pub struct GroupPut {
    pub region: u32,
    pub call: u32,
    pub time: u64,
    pub durability: Durability,
    pub batch: Batch,
}

/// Puts the cells of one edit into a region.
pub fn put_with<'a, D: Disk, N: ServerName, R: Wait, G: Gate, S: Wait>(
    server: &Server<'a, D, N, R>,
    rt: &S,
    alloc: Global,
    pass: &mut Pass<N>,
    put: GroupPut,
    gate: &G,
) -> Result<u64, PutRefusal>
    requires of { IsPassOf server.now pass.old }
    requires region { (1 ≤ put.region) × (put.region ≤ N.name.regions) }
    requires call { (knows pass.old).calls < put.call }
    requires time { put.time < 2 ^ 63 }
    ensures puts { Puts N.name put.time put.region (is_sync put.durability) put.batch (call_by (knows pass.old) put.call) (put_answer result)
        (knows pass.old) (knows pass.new) }
    ensures exact { IsFaultExact (is_sync put.durability) put.region result pass.old.seat.device.knows pass.new.seat.device.knows }
    ensures of { IsPassOf server.now pass.new }
{
    let GroupPut {
        region,
        call,
        time,
        durability,
        batch,
    } = put;
    server.put(rt, alloc, pass, region, call, time, durability, batch, gate)
}

/// The same where the server is there.
pub fn put_at<'a, D: Disk, N: ServerName, R: Wait, G: Gate, S: Wait>(
    server: &Option<Server<'a, D, N, R>>,
    rt: &S,
    alloc: Global,
    pass: &mut Option<Pass<N>>,
    put: GroupPut,
    gate: &G,
) -> Result<u64, PutRefusal>
    requires there { server.now ≢ None }
    requires of { IsPassAt server.now pass.old }
    requires region { (1 ≤ put.region) × (put.region ≤ N.name.regions) }
    requires call { (known_by pass.old).calls < put.call }
    requires time { put.time < 2 ^ 63 }
    ensures puts { Puts N.name put.time put.region (is_sync put.durability) put.batch (call_by (known_by pass.old) put.call) (put_answer result)
        (known_by pass.old) (known_by pass.new) }
    ensures exact { IsExactAt (is_sync put.durability) put.region result pass.old pass.new }
    ensures of { IsPassAt server.now pass.new }
{
    match (server, pass) {
        (Some(server), Some(pass)) => put_with(server, rt, alloc, pass, put, gate),
        _ => unreachable!(),
    }
}

/// A scan.
pub fn scan_at<'a, D: Disk, N: ServerName, R: Wait>(
    server: &Option<Server<'a, D, N, R>>,
    alloc: Global,
    pass: &mut Option<Pass<N>>,
    region: u32,
    from: &[u8],
    to: &[u8],
) -> Result<ScanReply, NoMemory>
    requires there { server.now ≢ None }
    requires of { IsPassAt server.now pass.old }
    requires region { (1 ≤ region) × (region ≤ N.name.regions) }
    ensures scans { Scans N.name Raw region from.now to.now (scan_answer result) (known_by pass.old) (known_by pass.new) }
    ensures of { IsPassAt server.now pass.new }
{
    match (server, pass) {
        (Some(server), Some(pass)) => server.scan(alloc, pass, region, from, to),
        _ => unreachable!(),
    }
}

/// A look at a region's point.
pub fn read_point_of<'a, D: Disk, N: ServerName, R: Wait>(
    server: &Server<'a, D, N, R>,
    pass: &mut Pass<N>,
    region: u32,
) -> u64
    requires of { IsPassOf server.now pass.old }
    requires region { (1 ≤ region) × (region ≤ N.name.regions) }
    ensures looks { Looks N.name region result (knows pass.old) (knows pass.new) }
    ensures of { IsPassOf server.now pass.new }
{
    server.read_point(pass, region)
}

/// The same where the server is there.
pub fn read_point_at<'a, D: Disk, N: ServerName, R: Wait>(
    server: &Option<Server<'a, D, N, R>>,
    pass: &mut Option<Pass<N>>,
    region: u32,
) -> u64
    requires there { server.now ≢ None }
    requires of { IsPassAt server.now pass.old }
    requires region { (1 ≤ region) × (region ≤ N.name.regions) }
    ensures looks { Looks N.name region result (known_by pass.old) (known_by pass.new) }
    ensures of { IsPassAt server.now pass.new }
{
    match (server, pass) {
        (Some(server), Some(pass)) => read_point_of(server, pass, region),
        _ => unreachable!(),
    }
}

/// A flush.
pub fn flush_at<'a, D: Disk, N: ServerName, R: Wait, S: Wait>(
    server: &Option<Server<'a, D, N, R>>,
    rt: &S,
    alloc: Global,
    pass: &mut Option<Pass<N>>,
    region: u32,
    call: u32,
    family: Option<&[u8]>,
) -> Result<u64, FlushRefusal>
    requires there { server.now ≢ None }
    requires family { IfSome family (λ f. (1 ≤ length f.now) × (length f.now ≤ 127)) }
    requires of { IsPassAt server.now pass.old }
    requires region { (1 ≤ region) × (region ≤ N.name.regions) }
    requires call { (known_by pass.old).calls < call }
    requires listed { Contains (N.name.flushes region) (call_by (known_by pass.old) call) }
    ensures flushes { Flushes N.name region (option_map (λ f. f.now) family.entry) (call_by (known_by pass.old) call) (flush_answer result)
        (known_by pass.old) (known_by pass.new) }
    ensures of { IsPassAt server.now pass.new }
{
    match (server, pass) {
        (Some(server), Some(pass)) => server.flush(rt, alloc, pass, region, call, family),
        _ => unreachable!(),
    }
}

/// A roll.
pub fn roll_at<'a, D: Disk, N: ServerName, R: Wait, S: Wait>(
    server: &Option<Server<'a, D, N, R>>,
    rt: &S,
    alloc: Global,
    pass: &mut Option<Pass<N>>,
) -> Result<Rolled, RollRefusal>
    requires there { server.now ≢ None }
    requires of { IsPassAt server.now pass.old }
    ensures rolls { Rolls (roll_answer result) (known_by pass.old) (known_by pass.new) }
    ensures of { IsPassAt server.now pass.new }
{
    match (server, pass) {
        (Some(server), Some(pass)) => server.roll(rt, alloc, pass),
        _ => unreachable!(),
    }
}

/// Helps a log.
pub fn help_with<'a, D: Disk, N: ServerName, R: Wait, S: Wait>(
    server: &Server<'a, D, N, R>,
    rt: &S,
    seat: &mut LogSeat,
) -> Helped
    requires seat { IsSeatOf server.now seat.old }
    ensures seat { IsSeatOf server.now seat.new }
    ensures helped { HasHelped result seat.old seat.new }
{
    server.help(rt, seat)
}

/// The same where the server is there.
pub fn help_at<'a, D: Disk, N: ServerName, R: Wait, S: Wait>(
    server: &Option<Server<'a, D, N, R>>,
    rt: &S,
    seat: &mut LogSeat,
) -> Helped
    requires seat { IsSeatAt server.now seat.old }
    ensures seat { IsSeatAt server.now seat.new }
    ensures helped { HasHelped result seat.old seat.new }
{
    match server {
        Some(server) => help_with(server, rt, seat),
        None => unreachable!(),
    }
}
