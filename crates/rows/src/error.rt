//! Why rows cannot be run.

use disk_images::{Failed, NamesError};
use kv_cell::NoMemory;
use std::alloc::{AllocError, AllocFailed};
use std::{fmt, io};

#[derive(Clone, Copy)]
pub enum RowsError {
    Memory,
    Disk,
    NoRows,
    Outside,
}

impl fmt::Display for RowsError {
    fn fmt<W: fmt::Write>(&self, f: &mut fmt::Formatter<W>) -> fmt::Result {
        f.write_str(match self {
            RowsError::Memory => "out of memory",
            RowsError::Disk => "the disk in memory failed while it was filled or read",
            RowsError::NoRows => "no file here is a row",
            RowsError::Outside => "the folder cannot be read, or the output cannot be written",
        })
    }
}

impl From<AllocError> for RowsError {
    fn from(_e: AllocError) -> RowsError {
        RowsError::Memory
    }
}

impl<T: Drop> From<AllocFailed<T>> for RowsError {
    fn from(_e: AllocFailed<T>) -> RowsError {
        RowsError::Memory
    }
}

impl From<NoMemory> for RowsError {
    fn from(_e: NoMemory) -> RowsError {
        RowsError::Memory
    }
}

impl From<Failed> for RowsError {
    fn from(_e: Failed) -> RowsError {
        RowsError::Disk
    }
}

impl From<NamesError> for RowsError {
    fn from(e: NamesError) -> RowsError {
        match e {
            NamesError::Failed => RowsError::Disk,
            NamesError::Memory => RowsError::Memory,
        }
    }
}

impl From<io::Error> for RowsError {
    fn from(_e: io::Error) -> RowsError {
        RowsError::Outside
    }
}
