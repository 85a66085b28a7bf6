//! Why a store cannot be opened.

ghost use Rattle.std.specs.Prelude.{◌≡◌};
ghost use Rattle.found_files.specs.declared.refusal.SplitRefusal.TheVariants as refusals;
ghost use Rattle.found_files.specs.Refusal.{refusal_of};

use disk_images::{Failed, NamesError};
use kv_cell::NoMemory;
use log_model::Damage;
use std::alloc::AllocFailed;

#[derive(Clone, Copy, Debug, PartialEq, Eq)]
pub enum SplitRefusal {
    Memory,
    DiskFault,
    Damaged(Damage),
}

impl From<Failed> for SplitRefusal {
    ghost from_gives = { λ _ e. e ≡ refusals.DiskFault };

    fn from(_e: Failed) -> SplitRefusal {
        SplitRefusal::DiskFault
    }
}

impl From<NamesError> for SplitRefusal {
    ghost from_gives = { λ e refusal. refusal ≡ refusal_of e };

    fn from(e: NamesError) -> SplitRefusal {
        match e {
            NamesError::Failed => SplitRefusal::DiskFault,
            NamesError::Memory => SplitRefusal::Memory,
        }
    }
}

impl From<NoMemory> for SplitRefusal {
    ghost from_gives = { λ _ e. e ≡ refusals.Memory };

    fn from(_e: NoMemory) -> SplitRefusal {
        SplitRefusal::Memory
    }
}

impl<T: Drop> From<AllocFailed<T>> for SplitRefusal {
    ghost from_gives = { λ _ e. e ≡ refusals.Memory };

    fn from(_e: AllocFailed<T>) -> SplitRefusal {
        SplitRefusal::Memory
    }
}
