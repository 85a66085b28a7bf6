//! Why a run ended as it did, on standard error.

use cause_text::{Cause, Meant, Place, Status};
use disk_folder::FolderDisk;
use groups_command::GroupsStatus;
use groups_command::group_servers::GroupList;
use std::io;
use std::process::ExitCode;
use std::rt::Env;

/// How a run ended, and what the outside said of it.
#[derive(Clone, Copy)]
pub struct Ended {
    pub status: GroupsStatus,
    /// Why a read of the script failed.
    pub input: Option<io::Error>,
    /// Why a write of the output failed.
    pub output: Option<io::Error>,
}

impl Ended {
    /// Of a run that was refused before it looked at anything.
    pub fn before_work(status: GroupsStatus, output: Option<io::Error>) -> Ended {
        Ended {
            status,
            input: None,
            output,
        }
    }

    /// Says what there is to be said, and gives the exit status. Which call of a disk failed its folder has said. Where standard
    /// error takes nothing, nobody is told.
    pub fn tell<R: Eprint + Env + AllocGlobal>(self, rt: &R) -> ExitCode {
        if let Some(cause) = self.input {
            let _ = eprintln!(rt; "hwal: read standard input: {cause}");
        }
        if let Some(cause) = self.output {
            let _ = eprintln!(rt; "hwal: write standard output: {cause}");
        }
        tell_status(rt, self.status);
        ExitCode::from(self.status.number())
    }
}

/// Says which folders weren't there: a new store was begun in each.
pub fn tell_absent<R, Q>(rt: &R, disks: &GroupList<FolderDisk<'_, Q>>)
where
    R: Eprint + Env + AllocGlobal,
{
    tell_if_absent(rt, 1, Some(&disks.first));
    tell_if_absent(rt, 2, disks.second.as_ref());
    tell_if_absent(rt, 3, disks.third.as_ref());
    tell_if_absent(rt, 4, disks.fourth.as_ref());
}

fn tell_if_absent<R, Q>(rt: &R, disk: u32, folder: Option<&FolderDisk<'_, Q>>)
where
    R: Eprint + Env + AllocGlobal,
{
    let Some(folder) = folder else {
        return;
    };
    if folder.was_absent() {
        let place = Place::of(rt, name_of(disk));
        let _ = eprintln!(rt; "hwal: there was no folder {place}: it reads as an empty store");
    }
}

/// The name of the folder of this number, or of all of them.
fn name_of(disk: u32) -> &'static str {
    match disk {
        1 => "hwal-store-1",
        2 => "hwal-store-2",
        3 => "hwal-store-3",
        4 => "hwal-store-4",
        _ => "hwal-store-*",
    }
}

/// Says why a run ended so, and what to do next.
fn tell_status<R: Eprint + Env + AllocGlobal>(rt: &R, status: GroupsStatus) {
    let (disk, status) = match status {
        GroupsStatus::WrongGroup { disk, region } => {
            let place = Place::of(rt, name_of(disk));
            let _ = eprintln!(rt;
                "hwal: {place} has something of region {region}, which is of another folder; no folder was changed: were folders exchanged, or was their number another one before?"
            );
            return;
        }
        GroupsStatus::Damaged { disk, damage } => (disk, Status::Damaged(damage)),
        GroupsStatus::Done => (0, Status::Done),
        GroupsStatus::Memory => (0, Status::Memory),
        GroupsStatus::Usage => (0, Status::Usage),
        GroupsStatus::Script { line, why } => (0, Status::Script { line, why }),
        GroupsStatus::SourceFault => (0, Status::SourceFault),
        GroupsStatus::DiskFault => (0, Status::DiskFault),
        GroupsStatus::SinkFault => (0, Status::SinkFault),
        GroupsStatus::NumbersSpent { region, last } => (0, Status::NumbersSpent { region, last }),
    };
    let place = Place::of(rt, name_of(disk));
    if let Some(cause) = Cause::of(Meant::Groups, status, &place) {
        let _ = eprintln!(rt; "hwal: {cause}");
    }
}
