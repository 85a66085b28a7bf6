//! Opened stores become servers.

ghost use Rattle.std.specs.Prelude.{◌≡◌, ◌≢◌, None, IfOk, IfErr};
ghost use Rattle.group_calls.specs.group_servers.group_lists.Lists.{at_group};
ghost use Rattle.group_calls.specs.group_servers.Starting.{IsNamedBy, IsNamedAt};
ghost use Rattle.groups_run.specs.Dealing.{AreGroupPassesOf, NoneIsOut};
ghost use Rattle.groups_run.specs.Helpers.{AreHelpersOf, AreTwoEach};
ghost use Rattle.groups_run.specs.Starting.{AreServersOf, AreAlike, HeldOrLetGo, HeldOrLetGoAt};

use crate::helpers::GroupHelpers;
use crate::others::{Others, OthersRefusal, start_others};
use crate::parts::parts_of;
use crate::passes::GroupPasses;
use disk_images::Disk;
use group_calls::Groups;
use group_calls::group_servers::{GroupList, GroupsRefusal, GroupsWhy, disk_at, let_go};
use group_calls::handler_threads::ServerName;
use group_calls::region_calls::{OpenedStore, StartRefusal, Started};
use std::alloc::Global;
use std::sync::Wait;

/// The servers, their handlers' passes, and two seats of each for threads that help its log.
pub struct GroupsStarted<
    'a,
    D: Disk,
    N1: ServerName,
    N2: ServerName,
    N3: ServerName,
    N4: ServerName,
    R: Wait,
> {
    pub groups: Groups<'a, D, N1, N2, N3, N4, R>,
    pub passes: GroupPasses<N1, N2, N3, N4>,
    pub helpers: GroupHelpers,
}

/// The refusal for out of memory at the store of this number.
fn no_memory<D>(disk: u32, disks: GroupList<D>) -> GroupsRefusal<D>
    ensures { result ≡ (record { why = GroupsWhy.Memory; disk = disk; disks = disks }) }
{
    GroupsRefusal {
        why: GroupsWhy::Memory,
        disk,
        disks,
    }
}

/// The servers of these stores, each by a name that is its store's. It refuses where it is out of memory, and tells at which store: those
/// before it were begun and are closed again, the others are as they were opened. The servers keep the handle `rt`.
pub fn start_groups<
    'a,
    D: Disk,
    N1: ServerName,
    N2: ServerName,
    N3: ServerName,
    N4: ServerName,
    R: Wait,
>(
    rt: &'a R,
    alloc: Global,
    opened: GroupList<OpenedStore<D>>,
) -> Result<GroupsStarted<'a, D, N1, N2, N3, N4, R>, GroupsRefusal<D>>
    requires alike { AreAlike opened }
    requires named_1 { IsNamedBy D.Disk N1.ServerNaming N1.LockNaming N1.ServiceNaming N1.VersionsNaming opened.first }
    requires named_2 { IsNamedAt D.Disk N2.ServerNaming N2.LockNaming N2.ServiceNaming N2.VersionsNaming opened.second }
    requires named_3 { IsNamedAt D.Disk N3.ServerNaming N3.LockNaming N3.ServiceNaming N3.VersionsNaming opened.third }
    requires named_4 { IsNamedAt D.Disk N4.ServerNaming N4.LockNaming N4.ServiceNaming N4.VersionsNaming opened.fourth }

    ensures servers { IfOk result (λ s. AreServersOf opened s.groups) }
    ensures passes { IfOk result (λ s. AreGroupPassesOf s.groups N1.handlers N2.handlers N3.handlers N4.handlers s.passes × NoneIsOut s.passes) }
    ensures helpers { IfOk result (λ s. AreHelpersOf s.groups s.helpers × AreTwoEach s.helpers) }
    ensures refused { IfErr result (λ e. (e.why ≡ GroupsWhy.Memory) × (at_group opened e.disk ≢ None)) }
    // What is left of each store where it refuses.
    ensures first { IfErr result
        (λ e. HeldOrLetGo D.Disk N1.ServerNaming N1.LockNaming N1.ServiceNaming N1.VersionsNaming 1 e.disk opened.first e.disks.first) }
    ensures second { IfErr result
        (λ e. HeldOrLetGoAt D.Disk N2.ServerNaming N2.LockNaming N2.ServiceNaming N2.VersionsNaming 2 e.disk opened.second e.disks.second) }
    ensures third { IfErr result
        (λ e. HeldOrLetGoAt D.Disk N3.ServerNaming N3.LockNaming N3.ServiceNaming N3.VersionsNaming 3 e.disk opened.third e.disks.third) }
    ensures fourth { IfErr result
        (λ e. HeldOrLetGoAt D.Disk N4.ServerNaming N4.LockNaming N4.ServiceNaming N4.VersionsNaming 4 e.disk opened.fourth e.disks.fourth) }
{
    let count = opened.count();
    let GroupList {
        first,
        second,
        third,
        fourth,
    } = opened;
    let first = match first.named::<N1, R>(rt, alloc) {
        Ok(started) => started,
        Err(StartRefusal { why: _, disk }) => {
            let second = disk_at(second);
            let third = disk_at(third);
            let fourth = disk_at(fourth);
            let left = GroupList::of(disk, second, third, fourth);
            return Err(no_memory(1, left));
        }
    };
    match start_others::<D, N2, N3, N4, R>(rt, alloc, second, third, fourth) {
        Ok(others) => {
            let Others {
                second,
                third,
                fourth,
            } = others;
            let Started {
                server,
                passes,
                helpers,
            } = first;
            let (server_2, passes_2, helpers_2) = parts_of(second);
            let (server_3, passes_3, helpers_3) = parts_of(third);
            let (server_4, passes_4, helpers_4) = parts_of(fourth);
            let groups = Groups::of(rt, count, server, server_2, server_3, server_4);
            Ok(GroupsStarted {
                groups,
                passes: GroupPasses {
                    first: passes,
                    second: passes_2,
                    third: passes_3,
                    fourth: passes_4,
                },
                helpers: GroupHelpers {
                    first: helpers,
                    second: helpers_2,
                    third: helpers_3,
                    fourth: helpers_4,
                },
            })
        }
        Err(
            OthersRefusal {
                disk,
                second,
                third,
                fourth,
            },
        ) => {
            let first = let_go(rt, first);
            let left = GroupList::of(first, second, third, fourth);
            Err(no_memory(disk, left))
        }
    }
}
