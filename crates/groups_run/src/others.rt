//! The stores of groups 2 to 4 become servers, where they are there.

ghost use Rattle.std.specs.Prelude.{◌≡◌, ◌≢◌, ◌<◌, None, IfOk, IfErr, IfSome};
ghost use Rattle.group_calls.specs.group_servers.group_lists.Lists.{AtBoth, at_group};
ghost use Rattle.group_calls.specs.group_servers.Starting.{HasRegionsOf, IsNamedAt, IsNew};
ghost use Rattle.groups_run.specs.Starting.{HeldOrLetGoAt};
ghost use Rattle.group_calls.specs.region_calls.declared.store.OpenedStore.{OpenedStore as TheStore};

use disk_images::Disk;
use group_calls::group_servers::{disk_at, let_go_at, start_at};
use group_calls::handler_threads::ServerName;
use group_calls::region_calls::{OpenedStore, Started};
use std::alloc::Global;
use std::sync::Wait;

/// The servers of groups 2 to 4, with their passes and seats.
pub(crate) struct Others<'a, D: Disk, N2: ServerName, N3: ServerName, N4: ServerName, R: Wait> {
    pub(crate) second: Option<Started<'a, D, N2, R>>,
    pub(crate) third: Option<Started<'a, D, N3, R>>,
    pub(crate) fourth: Option<Started<'a, D, N4, R>>,
}

/// The disks of groups 2 to 4, and the number of the one whose server found no memory.
pub(crate) struct OthersRefusal<D> {
    pub(crate) disk: u32,
    pub(crate) second: Option<D>,
    pub(crate) third: Option<D>,
    pub(crate) fourth: Option<D>,
}

/// A refusal at the disk of this number.
fn refused<D>(disk: u32, second: Option<D>, third: Option<D>, fourth: Option<D>) -> OthersRefusal<D>
    ensures { result ≡ (record { disk = disk; second = second; third = third; fourth = fourth }) }
{
    OthersRefusal {
        disk,
        second,
        third,
        fourth,
    }
}

/// The servers of the stores of groups 2 to 4, each by a name that is its store's. Where there is no memory it tells at which store: those before it
/// were begun and are closed again, the others are as they were opened.
pub(crate) fn start_others<'a, D: Disk, N2: ServerName, N3: ServerName, N4: ServerName, R: Wait>(
    rt: &'a R,
    alloc: Global,
    second: Option<OpenedStore<D>>,
    third: Option<OpenedStore<D>>,
    fourth: Option<OpenedStore<D>>,
) -> Result<Others<'a, D, N2, N3, N4, R>, OthersRefusal<D>>
    requires named_2 { IsNamedAt D.Disk N2.ServerNaming N2.LockNaming N2.ServiceNaming N2.VersionsNaming second }
    requires named_3 { IsNamedAt D.Disk N3.ServerNaming N3.LockNaming N3.ServiceNaming N3.VersionsNaming third }
    requires named_4 { IsNamedAt D.Disk N4.ServerNaming N4.LockNaming N4.ServiceNaming N4.VersionsNaming fourth }
    // Each is new, and serves its store's regions.
    ensures started { IfOk result (λ o. IfSome o.second (λ s. IsNew N2.handlers s.server s.passes s.helpers)
        × IfSome o.third (λ s. IsNew N3.handlers s.server s.passes s.helpers)
        × IfSome o.fourth (λ s. IsNew N4.handlers s.server s.passes s.helpers)
        × AtBoth (λ store s. HasRegionsOf store s.server) second o.second
        × AtBoth (λ store s. HasRegionsOf store s.server) third o.third
        × AtBoth (λ store s. HasRegionsOf store s.server) fourth o.fourth) }
    // Where it refuses, and what is left of each store.
    ensures refused { IfErr result (λ e. (1 < e.disk)
        × ((first : TheStore D) → at_group (record { first = first; second = second; third = third; fourth = fourth }) e.disk ≢ None)
        × HeldOrLetGoAt D.Disk N2.ServerNaming N2.LockNaming N2.ServiceNaming N2.VersionsNaming 2 e.disk second e.second
        × HeldOrLetGoAt D.Disk N3.ServerNaming N3.LockNaming N3.ServiceNaming N3.VersionsNaming 3 e.disk third e.third
        × HeldOrLetGoAt D.Disk N4.ServerNaming N4.LockNaming N4.ServiceNaming N4.VersionsNaming 4 e.disk fourth e.fourth) }
{
    let second = match start_at::<D, N2, R>(rt, alloc, second) {
        Ok(started) => started,
        Err(disk) => {
            let third = disk_at(third);
            let fourth = disk_at(fourth);
            return Err(refused(2, Some(disk), third, fourth));
        }
    };
    let third = match start_at::<D, N3, R>(rt, alloc, third) {
        Ok(started) => started,
        Err(disk) => {
            let second = let_go_at(rt, second);
            let fourth = disk_at(fourth);
            return Err(refused(3, second, Some(disk), fourth));
        }
    };
    match start_at::<D, N4, R>(rt, alloc, fourth) {
        Ok(fourth) => Ok(Others {
            second,
            third,
            fourth,
        }),
        Err(disk) => {
            let second = let_go_at(rt, second);
            let third = let_go_at(rt, third);
            Err(refused(4, second, third, Some(disk)))
        }
    }
}
