//! A disk that holds one file to be read, and tells nothing of it, so that its callers owe no proof of what it holds.

ghost use Rattle.std.specs.Prelude.{◌≤◌, false};
ghost use Rattle.disk_images.specs.Calls.{Rose};

use disk_images::{Disk, Failed, Name, NameList, NamesError};
use std::alloc::Global;

/// The first bytes of one file, as many as stand in it, the size that it tells where that isn't their number, and how many calls
/// looked at it. Other calls fail.
#[derive(Clone, Copy)]
pub(crate) struct OneFile {
    bytes: [u8; 107],
    len: usize,
    pub(crate) size: Option<u64>,
    pub(crate) calls: u64,
    faults: u64,
}

impl OneFile {
    pub(crate) fn of(bytes: [u8; 107], len: usize) -> OneFile {
        OneFile {
            bytes,
            len,
            size: None,
            calls: 0,
            faults: 0,
        }
    }

    fn fail(&mut self) -> Failed
        ensures rose { Rose self.old.faults self.new.faults }
        ensures later { self.old.faults ≤ self.new.faults }
    {
        self.faults = self.faults.saturating_add(1);
        Failed
    }
}

impl Disk for OneFile {
    ghost use Rattle.file_base.specs.Untold.{no_view, untold};

    ghost told = { false };

    ghost view = { λ _. no_view };

    ghost faults = { λ disk. disk.faults };

    ghost is_true = { λ _ told. untold told };

    fn names(&mut self, _alloc: Global) -> Result<NameList, NamesError> {
        Err(NamesError::Memory)
    }

    fn size(&mut self, _name: Name) -> Result<Option<u64>, Failed> {
        self.calls = self.calls.saturating_add(1);
        Ok(Some(self.size.unwrap_or(self.len as u64)))
    }

    fn read(&mut self, _name: Name, at: u64, into: &mut [u8]) -> Result<usize, Failed> {
        self.calls = self.calls.saturating_add(1);
        let bytes = self.bytes.get(at as usize..self.len).unwrap_or(&[]);
        let n = into.len().min(bytes.len());
        into[..n].copy_from_slice(&bytes[..n]);
        Ok(n)
    }

    fn create(&mut self, _name: Name) -> Result<(), Failed> {
        Err(self.fail())
    }

    fn write_at(&mut self, _name: Name, _at: u64, _bytes: &[u8]) -> Result<(), Failed> {
        Err(self.fail())
    }

    fn sync(&mut self, _name: Name) -> Result<(), Failed> {
        Err(self.fail())
    }

    fn rename(&mut self, _from: Name, _to: Name) -> Result<(), Failed> {
        Err(self.fail())
    }

    fn remove(&mut self, _name: Name) -> Result<(), Failed> {
        Err(self.fail())
    }

    fn settle(&mut self) -> Result<(), Failed> {
        Err(self.fail())
    }
}
