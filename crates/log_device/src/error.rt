//! What a device answers where it can't do what it was asked.

ghost use Rattle.std.specs.Prelude.{◌≡◌};
ghost use Rattle.log_device.specs.declared.error.RollRefusal.TheVariants as roll_refusals;
ghost use Rattle.log_device.specs.declared.error.DeviceFlush.TheVariants as flush_refusals;
ghost use Rattle.log_device.specs.Refusal.{why_of_names, why_of_file};

use disk_images::NamesError;
use kv_cell::NoMemory;
use log_file::FileRefusal;
use log_trucks::Truck;
use thiserror::Error;

/// A disk call of the log failed, now or before.
#[derive(Clone, Copy, Debug, PartialEq, Eq, Error)]
#[error("a disk call of the log failed")]
pub struct WriteFault;

/// The entry doesn't fit the stage. Its truck comes back.
#[derive(Drop)]
pub struct StageFull {
    pub truck: Box<Truck>,
}

/// What a roll did.
#[derive(Clone, Copy, Debug, PartialEq, Eq)]
pub struct Rolled {
    /// The number of the file that was closed.
    pub closed: u64,
    /// How many entries it holds.
    pub entries: u64,
}

/// Why a log isn't rolled.
#[derive(Clone, Copy, Debug, PartialEq, Eq, Error)]
pub enum RollRefusal {
    #[error("no memory")]
    Memory,
    #[error("a disk call of the log failed")]
    WriteFault,
    /// The current file, which has this number, has no entry.
    #[error("log {file} has no entry")]
    NothingToRoll { file: u64 },
}

/// Why a region, or one family of it, isn't flushed.
#[derive(Clone, Copy, Debug, PartialEq, Eq, Error)]
pub enum DeviceFlush {
    #[error("no memory")]
    Memory,
    #[error("a disk call of the log failed")]
    WriteFault,
    /// No cell of the region, or of the family that was asked for, is unflushed. This is the region's last number.
    #[error("nothing above number {flushed} to flush")]
    Nothing { flushed: u64 },
}

/// Why a device can't be started.
#[derive(Clone, Copy, Debug, PartialEq, Eq, Error)]
pub enum DeviceWhy {
    #[error("no memory")]
    Memory,
    #[error("a disk call failed")]
    DiskFault,
}

/// A device that wasn't started. The disk comes back.
#[derive(Drop)]
pub struct DeviceRefusal<D> {
    pub why: DeviceWhy,
    pub disk: D,
}

impl From<NoMemory> for RollRefusal {
    ghost from_gives = { λ _ e. e ≡ roll_refusals.Memory };

    fn from(_e: NoMemory) -> RollRefusal {
        RollRefusal::Memory
    }
}

impl From<WriteFault> for RollRefusal {
    ghost from_gives = { λ _ e. e ≡ roll_refusals.WriteFault };

    fn from(_e: WriteFault) -> RollRefusal {
        RollRefusal::WriteFault
    }
}

impl From<NoMemory> for DeviceFlush {
    ghost from_gives = { λ _ e. e ≡ flush_refusals.Memory };

    fn from(_e: NoMemory) -> DeviceFlush {
        DeviceFlush::Memory
    }
}

impl From<WriteFault> for DeviceFlush {
    ghost from_gives = { λ _ e. e ≡ flush_refusals.WriteFault };

    fn from(_e: WriteFault) -> DeviceFlush {
        DeviceFlush::WriteFault
    }
}

impl From<NamesError> for DeviceWhy {
    ghost from_gives = { λ e why. why ≡ why_of_names e };

    fn from(e: NamesError) -> DeviceWhy {
        match e {
            NamesError::Failed => DeviceWhy::DiskFault,
            NamesError::Memory => DeviceWhy::Memory,
        }
    }
}

impl From<FileRefusal> for DeviceWhy {
    ghost from_gives = { λ e why. why ≡ why_of_file e };

    fn from(e: FileRefusal) -> DeviceWhy {
        match e {
            FileRefusal::Memory => DeviceWhy::Memory,
            FileRefusal::DiskFault => DeviceWhy::DiskFault,
        }
    }
}
