//! Files that stay open between the calls on them.

ghost use Rattle.std.specs.Prelude.{◌≡◌, ◌≢◌, ◌<◌, ◌⊎◌, [], Contains, slice_index_or, vec_len, IfSome};
ghost use Rattle.folder_system.specs.declared.open_files.OpenFile.{OpenFile as TheOpenFile};

use disk_images::Name;
use std::alloc::Global;

/// How many files stay open at the most: a log, and those that a flush or an opening works on.
const MOST: usize = 16;

/// An open file, and the name by which it was opened.
#[derive(Drop)]
pub(crate) struct OpenFile<H> {
    pub name: Name,
    pub file: H,
    pub is_writable: bool,
}

/// The files that are open, the one used last at the end.
#[derive(Drop)]
pub(crate) struct OpenFiles<H> {
    pub(crate) files: Vec<OpenFile<H>>,
}

impl<H: Drop> OpenFiles<H> {
    pub(crate) fn new(alloc: Global) -> OpenFiles<H>
        ensures { result.files.items ≡ [] }
    {
        OpenFiles {
            files: Vec::new(alloc),
        }
    }

    /// Where the file of this name stands, open for writing where that is asked for.
    fn place_of(&self, name: Name, for_writing: bool) -> Option<usize>
        ensures { IfSome result (λ at. (at < vec_len self.now.files) × ((d : TheOpenFile H) → (slice_index_or self.now.files.items at d).name ≡ name)) }
    {
        self.files.iter().position(|entry| entry.name == name
            && (entry.is_writable || !for_writing))
    }

    /// Takes out the file of this name, open for writing where that is asked for.
    pub(crate) fn take(&mut self, name: Name, for_writing: bool) -> Option<OpenFile<H>>
        ensures taken { IfSome result (λ entry. (entry.name ≡ name) × Contains self.old.files.items entry) }
        ensures kept { (f : TheOpenFile H) → Contains self.new.files.items f → Contains self.old.files.items f }
    {
        let at = self.place_of(name, for_writing)?;
        Some(self.files.remove(at))
    }

    /// Keeps a file open, and closes the one that wasn't used for longest where there are too many. Where no memory is found it
    /// is closed.
    pub(crate) fn keep(&mut self, entry: OpenFile<H>)
        ensures { (f : TheOpenFile H) → Contains self.new.files.items f → Contains self.old.files.items f ⊎ (f ≡ entry) }
    {
        if self.files.len() >= MOST {
            let oldest = self.files.remove(0);
            drop(oldest);
        }
        let _ = self.files.push(entry);
    }

    /// Closes the file of this name, if it is open.
    pub(crate) fn close(&mut self, name: Name)
        ensures closed { (f : TheOpenFile H) → Contains self.new.files.items f → f.name ≢ name }
        ensures kept { (f : TheOpenFile H) → Contains self.new.files.items f → Contains self.old.files.items f }
    {
        self.files.retain(|entry| entry.name != name);
    }
}
