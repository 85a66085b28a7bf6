//! Files that stay open between the calls on them.

use disk_images::Name;
use std::alloc::Global;
use std::fs::File;
use std::io;

/// How many files stay open at the most: a log, and those that a flush or an opening works on.
const MOST: usize = 16;

#[derive(Drop)]
struct OpenFile {
    name: Name,
    file: File,
    is_writable: bool,
}

/// The files that are open, the one used last at the end.
#[derive(Drop)]
pub struct OpenFiles {
    files: Vec<OpenFile>,
}

impl OpenFiles {
    pub fn new(alloc: Global) -> OpenFiles {
        OpenFiles {
            files: Vec::new(alloc),
        }
    }

    /// Whether the file of this name is open, for writing where that is asked for. It is the one used last then.
    pub fn find(&mut self, name: Name, for_writing: bool) -> bool {
        let found = self.files.iter().position(|open| open.name == name
            && (open.is_writable || !for_writing));
        let Some(at) = found else {
            return false;
        };
        self.files[at..].rotate_left(1);
        true
    }

    /// The file that was used last.
    pub fn latest(&self) -> io::Result<&File> {
        match self.files.last() {
            Some(open) => Ok(&open.file),
            None => Err(io::Error::from(io::ErrorKind::NotFound)),
        }
    }

    /// Keeps a file open in place of an older handle, and closes the one that wasn't used for longest where there are too
    /// many.
    pub fn keep(&mut self, name: Name, file: File, is_writable: bool) -> io::Result<()> {
        self.close(name);
        if self.files.len() >= MOST {
            let oldest = self.files.remove(0);
            drop(oldest);
        }
        self.files.push(OpenFile {
            name,
            file,
            is_writable,
        })?;
        Ok(())
    }

    /// Closes the file of this name, if it is open.
    pub fn close(&mut self, name: Name) {
        self.files.retain(|open| open.name != name);
    }
}
