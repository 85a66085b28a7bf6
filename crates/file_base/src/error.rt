//! Why a file cannot be begun, written or read.

ghost use Rattle.std.specs.Prelude.{◌≡◌};
ghost use Rattle.file_base.specs.declared.error.FileRefusal.TheVariants as file_refusals;
ghost use Rattle.file_base.specs.declared.error.ReadRefusal.TheVariants as read_refusals;
ghost use Rattle.file_base.specs.Refusal.{read_refusal_of};

use disk_images::Failed;
use entry_frame::FeedRefusal;
use kv_cell::NoMemory;
use std::alloc::AllocFailed;
use thiserror::Error;

/// A disk call failed.
#[derive(Clone, Copy, Debug, PartialEq, Eq, Error)]
#[error("a disk call failed")]
pub struct DiskFault;

/// Why a file cannot be begun.
#[derive(Clone, Copy, Debug, PartialEq, Eq, Error)]
pub enum FileRefusal {
    #[error("no memory")]
    Memory,
    #[error("a disk call failed")]
    DiskFault,
}

/// Why a file cannot be read.
#[derive(Clone, Copy, Debug, PartialEq, Eq, Error)]
pub enum ReadRefusal {
    #[error("no memory")]
    Memory,
    #[error("a disk call failed")]
    DiskFault,
    #[error("damaged at offset {at}")]
    Damaged { at: u64 },
}

impl From<Failed> for DiskFault {
    fn from(_e: Failed) -> DiskFault {
        DiskFault
    }
}

impl From<NoMemory> for FileRefusal {
    ghost from_gives = { λ _ e. e ≡ file_refusals.Memory };

    fn from(_e: NoMemory) -> FileRefusal {
        FileRefusal::Memory
    }
}

impl From<DiskFault> for FileRefusal {
    ghost from_gives = { λ _ e. e ≡ file_refusals.DiskFault };

    fn from(_e: DiskFault) -> FileRefusal {
        FileRefusal::DiskFault
    }
}

impl From<NoMemory> for ReadRefusal {
    ghost from_gives = { λ _ e. e ≡ read_refusals.Memory };

    fn from(_e: NoMemory) -> ReadRefusal {
        ReadRefusal::Memory
    }
}

impl<T: Drop> From<AllocFailed<T>> for ReadRefusal {
    ghost from_gives = { λ _ e. e ≡ read_refusals.Memory };

    fn from(_e: AllocFailed<T>) -> ReadRefusal {
        ReadRefusal::Memory
    }
}

impl From<FeedRefusal> for ReadRefusal {
    ghost from_gives = { λ e refusal. refusal ≡ read_refusal_of e };

    fn from(e: FeedRefusal) -> ReadRefusal {
        match e {
            FeedRefusal::Memory => ReadRefusal::Memory,
            FeedRefusal::Damaged { at } => ReadRefusal::Damaged { at },
        }
    }
}

impl From<Failed> for ReadRefusal {
    ghost from_gives = { λ _ e. e ≡ read_refusals.DiskFault };

    fn from(_e: Failed) -> ReadRefusal {
        ReadRefusal::DiskFault
    }
}
