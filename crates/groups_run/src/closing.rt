//! How the servers are closed.

ghost use Rattle.std.specs.Prelude.{◌≡◌, ◌≤◌, ◌||◌, IfSome, length};
ghost use Rattle.std.specs.Option.{option_map};
ghost use Rattle.group_calls.specs.region_calls.Deals.{passes_back};
ghost use Rattle.group_calls.specs.group_servers.group_lists.Choosing.{AreAsMany};
ghost use Rattle.group_calls.specs.group_servers.Dealing.{AreBackAt};
ghost use Rattle.group_calls.specs.group_servers.group_lists.declared.lists.GroupList.{GroupList as TheList};
ghost use Rattle.group_calls.specs.group_servers.Closing.{HasEnded, HasEndedAt};
ghost use Rattle.group_calls.specs.group_servers.declared.shutting.ServerEnd.{ServerEnd as TheEnd};
ghost use Rattle.groups_run.specs.Closing.{HaveSameRegions, IsJoined, is_broken, regions_in};
ghost use Rattle.groups_run.specs.Dealing.{AreAllBack};

use crate::helpers::GroupHelpers;
use crate::passes::GroupPasses;
use disk_images::Disk;
use group_calls::Groups;
use group_calls::group_servers::{GroupList, ServerEnd, choose, close_at, close_one};
use group_calls::handler_threads::ServerName;
use group_calls::region_calls::{ClosedRegion, Helpers, Passes, Server};
use std::alloc::Global;
use std::sync::Wait;

/// The disks; the regions in order, each as its own group's server had it, or None where a server found no memory to be closed; and whether a
/// fault ended a group's log.
pub struct GroupsClosed<D> {
    pub disks: GroupList<D>,
    pub regions: Option<Vec<ClosedRegion>>,
    pub broken: bool,
}

/// What one close leaves, where there is such a group: its disk, its regions, and whether a fault ended its log.
fn parts_of<D>(end: Option<ServerEnd<D>>) -> (Option<D>, Option<Option<Vec<ClosedRegion>>>, bool)
    ensures disk { result.0 ≡ option_map (λ e. e.disk) end }
    ensures regions { result.1 ≡ option_map (λ e. e.regions) end }
    ensures broken { result.2 ≡ is_broken end }
{
    match end {
        None => (None, None, false),
        Some(
            ServerEnd {
                disk,
                regions,
                broken,
            },
        ) => (Some(disk), Some(regions), broken),
    }
}

/// Whether one of these holds.
fn any_of(first: bool, second: bool, third: bool, fourth: bool) -> bool
    ensures { result ≡ (first || second || third || fourth) }
{
    first || second || third || fourth
}

/// Joins what the closes leave of so many groups.
fn join<D>(count: u32, ends: GroupList<ServerEnd<D>>) -> GroupsClosed<D>
    requires groups { 1 ≤ count }
    requires count { IfSome ends.first.regions (λ xs. AreAsMany (length xs.items) (regions_in ends)) }
    ensures { IsJoined count ends result }
{
    let GroupList {
        first,
        second,
        third,
        fourth,
    } = ends;
    let ServerEnd {
        disk,
        regions,
        broken,
    } = first;
    let (disk_2, regions_2, broken_2) = parts_of(second);
    let (disk_3, regions_3, broken_3) = parts_of(third);
    let (disk_4, regions_4, broken_4) = parts_of(fourth);
    let disks = GroupList::of(disk, disk_2, disk_3, disk_4);
    let lists = GroupList {
        first: regions,
        second: regions_2,
        third: regions_3,
        fourth: regions_4,
    };
    GroupsClosed {
        disks,
        regions: choose(count, lists),
        broken: any_of(broken, broken_2, broken_3, broken_4),
    }
}

/// Closes a group's server, where there is one. Of a call whose contract has one `requires` alone and names lifetimes the goals cost many times
/// what they cost here.
fn close_here<'a, D: Disk, N: ServerName, R: Wait, S: Wait>(
    server: Option<Server<'a, D, N, R>>,
    rt: &S,
    alloc: Global,
    passes: Option<Passes<N>>,
    helpers: Option<Helpers>,
) -> Option<ServerEnd<D>>
    requires back { AreBackAt server N.handlers passes helpers }
    requires seats { IfSome helpers (λ seats. length seats ≡ 2) }
    ensures { HasEndedAt D.Disk N.ServerNaming N.LockNaming N.ServiceNaming N.VersionsNaming passes result }
{
    close_at(server, rt, alloc, passes, helpers)
}

/// Closes the servers, once all passes and seats are back: each commits what is left, unless its log is broken. It gives the disks, and each
/// region's journal as its own group's server has it, with the words of its log. A server that finds no memory gives its disk alone. Where what a
/// pass knows doesn't meet in a region, which no run shows, it does not return.
pub fn close_groups<
    'a,
    D: Disk,
    N1: ServerName,
    N2: ServerName,
    N3: ServerName,
    N4: ServerName,
    R: Wait,
    S: Wait,
>(
    groups: Groups<'a, D, N1, N2, N3, N4, R>,
    rt: &S,
    alloc: Global,
    passes: GroupPasses<N1, N2, N3, N4>,
    helpers: GroupHelpers,
) -> GroupsClosed<D>
    requires back { AreAllBack groups N1.handlers N2.handlers N3.handlers N4.handlers passes helpers }
    requires regions { HaveSameRegions N1.name N2.name N3.name N4.name groups }

    // Each server was closed, or gave its disk; and of what they left this is made.
    ensures { (ends : TheList (TheEnd D)) × IsJoined groups.entry.count ends result
        × HasEnded D.Disk N1.ServerNaming N1.LockNaming N1.ServiceNaming N1.VersionsNaming (passes_back passes.first) ends.first
        × HasEndedAt D.Disk N2.ServerNaming N2.LockNaming N2.ServiceNaming N2.VersionsNaming passes.second ends.second
        × HasEndedAt D.Disk N3.ServerNaming N3.LockNaming N3.ServiceNaming N3.VersionsNaming passes.third ends.third
        × HasEndedAt D.Disk N4.ServerNaming N4.LockNaming N4.ServiceNaming N4.VersionsNaming passes.fourth ends.fourth }
{
    let (count, first, second, third, fourth) = groups.into_parts();
    let GroupPasses {
        first: passes,
        second: passes_2,
        third: passes_3,
        fourth: passes_4,
    } = passes;
    let GroupHelpers {
        first: helpers,
        second: helpers_2,
        third: helpers_3,
        fourth: helpers_4,
    } = helpers;
    let first = close_one(first, rt, alloc, passes, helpers);
    let second = close_here(second, rt, alloc, passes_2, helpers_2);
    let third = close_here(third, rt, alloc, passes_3, helpers_3);
    let fourth = close_here(fourth, rt, alloc, passes_4, helpers_4);
    let ends = GroupList {
        first,
        second,
        third,
        fourth,
    };
    join(count, ends)
}
