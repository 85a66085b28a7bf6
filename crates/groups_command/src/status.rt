//! How a run on several disks ends.

ghost use Rattle.std.specs.Prelude.{◌≡◌};
ghost use Rattle.groups_command.specs.Status.{exit_status, status_as, split_of, IsShared};

use command_base::{Damage, Status};
use groups_run::group_servers::GroupList;
use script_text::ScriptWhy;

/// How a run on several disks ended: as `run` does, with the number of the disk where it is told of one.
#[derive(Clone, Copy, Debug, PartialEq, Eq)]
pub enum GroupsStatus {
    /// It did its work.
    Done,
    /// Memory was refused.
    Memory,
    /// The words aren't the number of the disks.
    Usage,
    /// This line of the script is the first wrong one; line 0 where the script is too long.
    Script {
        line: u64,
        why: ScriptWhy,
    },
    /// A read of the script failed.
    SourceFault,
    /// A call of a disk failed.
    DiskFault,
    /// A write of the output failed.
    SinkFault,
    /// The store on the disk of this number, from 1 on, is damaged as it was found.
    Damaged {
        disk: u32,
        damage: Damage,
    },
    /// A put found no sequence id left in its region, and no log is broken. It is the first one by handler and then call.
    NumbersSpent {
        /// Counted from 1.
        region: u32,
        /// The region's last sequence id.
        last: u64,
    },
    /// The disk of this number, from 1 on, has something of this region, which is another group's.
    WrongGroup {
        disk: u32,
        region: u32,
    },
}

impl GroupsStatus {
    /// The exit status of the program.
    pub fn number(self) -> u8
        ensures { result ≡ exit_status self }
    {
        match self {
            GroupsStatus::Done => 0,
            GroupsStatus::Memory => 1,
            GroupsStatus::Usage => 2,
            GroupsStatus::Script { .. } => 3,
            GroupsStatus::SourceFault => 4,
            GroupsStatus::DiskFault => 5,
            GroupsStatus::SinkFault => 6,
            GroupsStatus::Damaged { .. } => 7,
            GroupsStatus::NumbersSpent { .. } => 8,
            GroupsStatus::WrongGroup { .. } => 11,
        }
    }

    /// What `run` would tell, or which region it is that lies on another group's disk.
    pub(crate) fn split(self) -> Result<Status, WrongRegion>
        ensures { result ≡ split_of self }
    {
        Ok(match self {
            GroupsStatus::Done => Status::Done,
            GroupsStatus::Memory => Status::Memory,
            GroupsStatus::Usage => Status::Usage,
            GroupsStatus::Script { line, why } => Status::Script { line, why },
            GroupsStatus::SourceFault => Status::SourceFault,
            GroupsStatus::DiskFault => Status::DiskFault,
            GroupsStatus::SinkFault => Status::SinkFault,
            GroupsStatus::Damaged { disk: _, damage } => Status::Damaged(damage),
            GroupsStatus::NumbersSpent { region, last } => Status::NumbersSpent { region, last },
            GroupsStatus::WrongGroup { disk, region } => {
                return Err(WrongRegion { disk, region });
            }
        })
    }
}

/// A region on the disk of another group.
#[derive(Clone, Copy)]
pub(crate) struct WrongRegion {
    pub(crate) disk: u32,
    pub(crate) region: u32,
}

/// What `run` tells of a script, or of its handlers' report: it is the same here.
pub(crate) fn status_of(status: Status) -> GroupsStatus
    requires { IsShared status }
    ensures { result ≡ status_as status }
{
    match status {
        Status::Done => GroupsStatus::Done,
        Status::Memory => GroupsStatus::Memory,
        Status::Usage => GroupsStatus::Usage,
        Status::Script { line, why } => GroupsStatus::Script { line, why },
        Status::SourceFault => GroupsStatus::SourceFault,
        Status::DiskFault => GroupsStatus::DiskFault,
        Status::SinkFault => GroupsStatus::SinkFault,
        Status::NumbersSpent { region, last } => GroupsStatus::NumbersSpent { region, last },
        Status::Damaged(_) | Status::NotEmpty { .. } | Status::NoPosition { .. } => unreachable!(),
    }
}

/// How a run on several disks ended, and the disks that it left.
#[derive(Drop)]
pub struct GroupsOutcome<D> {
    pub status: GroupsStatus,
    pub disks: GroupList<D>,
}
