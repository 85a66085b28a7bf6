//! Why a region isn't compacted.

ghost use Rattle.std.specs.Prelude.{◌≡◌};
ghost use Rattle.store_compact.specs.declared.refusal.CompactRefusal.TheVariants as refusals;
ghost use Rattle.store_compact.specs.Refusals.{refusal_of};

use disk_images::Name;
use found_files::{Damage, SplitRefusal};
use kv_cell::NoMemory;

/// Why a region isn't compacted: no memory; a disk call failed; this store file is damaged at this offset; or so few store
/// files count that there is nothing to do.
#[derive(Clone, Copy, Debug, PartialEq, Eq)]
pub enum CompactRefusal {
    Memory,
    DiskFault,
    Damaged { name: Name, at: u64 },
    NothingToCompact { files: u64 },
}

impl From<NoMemory> for CompactRefusal {
    ghost from_gives = { λ _ e. e ≡ refusals.Memory };

    fn from(_e: NoMemory) -> CompactRefusal {
        CompactRefusal::Memory
    }
}

/// What is told where a region's files can't be read. Of two edits files that disagree, which are not there where a store
/// was opened, the first is told.
pub(crate) fn refused(e: SplitRefusal) -> CompactRefusal
    ensures { result ≡ refusal_of e }
{
    match e {
        SplitRefusal::Memory => CompactRefusal::Memory,
        SplitRefusal::DiskFault => CompactRefusal::DiskFault,
        SplitRefusal::Damaged(Damage::Bytes { name, at }) => CompactRefusal::Damaged { name, at },
        SplitRefusal::Damaged(Damage::Two { first, .. }) => {
            CompactRefusal::Damaged { name: first, at: 0 }
        }
    }
}
