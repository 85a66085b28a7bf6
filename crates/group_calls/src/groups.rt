//! Several servers, each with a disk and a log of its own.

ghost use Rattle.std.specs.Prelude.{◌≡◌, ◌≤◌};
ghost use Rattle.group_servers.specs.group_lists.Lists.{counted};
ghost use Rattle.groups_model.specs.Groups.{group_of};

use disk_images::Disk;
use group_servers::group_in;
use group_servers::handler_threads::ServerName;
use group_servers::region_calls::{LogSeat, Pass, Server};
use std::marker::Model;
use std::sync::Wait;

/// One to four servers, each of its group's regions and with a name of its own. Contracts see how many there are, and the id of each.
pub struct Groups<
    'a,
    D: Disk,
    N1: ServerName,
    N2: ServerName,
    N3: ServerName,
    N4: ServerName,
    R: Wait,
> {
    pub(crate) first: Server<'a, D, N1, R>,
    pub(crate) second: Option<Server<'a, D, N2, R>>,
    pub(crate) third: Option<Server<'a, D, N3, R>>,
    pub(crate) fourth: Option<Server<'a, D, N4, R>>,
    pub(crate) count: u32,
    // As a server has it.
    pub(crate) rt: &'a R,
}

impl<'a, D: Disk, N1: ServerName, N2: ServerName, N3: ServerName, N4: ServerName, R: Wait> Model
    for Groups<'a, D, N1, N2, N3, N4, R> {
    ghost use Rattle.group_calls.specs.Servers.{Servers, AreServers};

    ghost Value = { Servers };

    ghost view = { λ g. record { count = g.count; first = g.first; second = g.second; third = g.third; fourth = g.fourth } };

    ghost invariant = { λ g. AreServers g.count g.second g.third g.fourth };
}

impl<'a, D: Disk, N1: ServerName, N2: ServerName, N3: ServerName, N4: ServerName, R: Wait> Groups<
    'a,
    D,
    N1,
    N2,
    N3,
    N4,
    R,
> {
    /// These servers, of so many groups. They keep the handle `rt`.
    pub fn of(
        rt: &'a R,
        count: u32,
        first: Server<'a, D, N1, R>,
        second: Option<Server<'a, D, N2, R>>,
        third: Option<Server<'a, D, N3, R>>,
        fourth: Option<Server<'a, D, N4, R>>,
    ) -> Groups<'a, D, N1, N2, N3, N4, R>
        requires count { count ≡ counted second third fourth }
        ensures { result ≡ (record { count = count; first = first.entry; second = second.entry; third = third.entry; fourth = fourth.entry }) }
    {
        Groups {
            first,
            second,
            third,
            fourth,
            count,
            rt,
        }
    }

    /// How many groups there are, from 1 to 4, and their servers.
    pub fn into_parts(
        self,
    ) -> (
        u32,
        Server<'a, D, N1, R>,
        Option<Server<'a, D, N2, R>>,
        Option<Server<'a, D, N3, R>>,
        Option<Server<'a, D, N4, R>>,
    )
        ensures is { self.entry ≡ (record { count = result.0; first = result.1; second = result.2; third = result.3; fourth = result.4 }) }
        ensures some { (1 ≤ result.0) × (result.0 ≤ 4) }
    {
        let Groups {
            first,
            second,
            third,
            fourth,
            count,
            rt: _,
        } = self;
        (count, first, second, third, fourth)
    }

    /// The group that a region is of, from 1 on.
    pub fn group(&self, region: u32) -> u32
        requires region { 1 ≤ region }
        ensures is { result ≡ group_of self.now.count region }
        ensures there { (1 ≤ result) × (result ≤ self.now.count) × (self.now.count ≤ 4) }
    {
        group_in(self.count, region)
    }
}

/// What a handler calls them by: a pass of each.
#[derive(Drop)]
pub struct GroupPass<N1: ServerName, N2: ServerName, N3: ServerName, N4: ServerName> {
    pub first: Pass<N1>,
    pub second: Option<Pass<N2>>,
    pub third: Option<Pass<N3>>,
    pub fourth: Option<Pass<N4>>,
}

impl<N1: ServerName, N2: ServerName, N3: ServerName, N4: ServerName> GroupPass<N1, N2, N3, N4> {
    ghost use Rattle.group_calls.specs.Passes.{known};

    /// The handler's number, from 1 on.
    pub fn handler(&self) -> u32
        ensures { result ≡ (known self.now 1).handler }
    {
        self.first.handler()
    }
}

/// A seat for a thread that helps a group's log.
#[derive(Drop)]
pub struct GroupHelper {
    pub group: u32,
    pub seat: LogSeat,
}
