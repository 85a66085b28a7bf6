//! Why several stores can't be opened as groups.

ghost use Rattle.std.specs.Prelude.{◌≡◌};
ghost use Rattle.group_servers.specs.Refusals.{why_split};

use found_files::SplitRefusal;
use group_lists::GroupList;
use log_model::Damage;

/// Why groups aren't opened.
#[derive(Clone, Copy, Debug, PartialEq, Eq)]
pub enum GroupsWhy {
    Memory,
    /// A disk call failed.
    DiskFault,
    /// What was found is damaged so.
    Damaged(Damage),
    /// The disk has something of this region, which is another group's.
    WrongGroup { region: u32 },
}

/// Groups that could not be opened: why, and the number of the disk that it is told of, from 1 on. The disks come back.
#[derive(Drop)]
pub struct GroupsRefusal<D> {
    pub why: GroupsWhy,
    pub disk: u32,
    pub disks: GroupList<D>,
}

/// The same of what recovers a store.
pub(crate) fn split_why(refusal: SplitRefusal) -> GroupsWhy
    ensures { result ≡ why_split refusal }
{
    match refusal {
        SplitRefusal::Memory => GroupsWhy::Memory,
        SplitRefusal::DiskFault => GroupsWhy::DiskFault,
        SplitRefusal::Damaged(damage) => GroupsWhy::Damaged(damage),
    }
}
