//! What was read of a store's files.

ghost use Rattle.std.specs.Prelude.{◌≡◌, []};

use disk_images::NameList;
use entry_frame::Entry;
use log_model::Name;
use std::alloc::Global;
use store_file::StoreText;

/// An entry, and the log or edits file that it stands in.
#[derive(Drop)]
pub struct FoundEntry {
    pub name: Name,
    pub entry: Entry,
}

/// A store file that is there, and what stands in it.
#[derive(Drop)]
pub struct FoundStore {
    pub name: Name,
    pub text: StoreText,
}

/// The entries of the logs and edits files, and the store files that are there, in the order of names.
#[derive(Drop)]
pub struct FoundFiles {
    pub entries: Vec<FoundEntry>,
    pub stores: Vec<FoundStore>,
}

impl FoundFiles {
    pub fn new(alloc: Global) -> FoundFiles
        ensures entries { result.entries.items ≡ [] }
        ensures stores { result.stores.items ≡ [] }
    {
        FoundFiles {
            entries: Vec::new(alloc),
            stores: Vec::new(alloc),
        }
    }
}

/// The names of all files, and what was read of them.
#[derive(Drop)]
pub struct Finding {
    pub names: NameList,
    pub files: FoundFiles,
}

/// The names of the store and edits files of one region, in their order, and what was read of them.
#[derive(Drop)]
pub struct RegionFinding {
    pub names: Vec<Name>,
    pub files: FoundFiles,
}
