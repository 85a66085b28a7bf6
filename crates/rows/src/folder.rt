//! The row files in the folder where the program runs.

use std::alloc::AllocError;
use std::fs::{self, DirEntry};
use std::io;
use std::rt::Files;

/// A row's name, which is its file's without `.row`. Rows that must not hold come after the others.
#[derive(PartialEq, Eq, PartialOrd, Ord, Drop)]
pub struct Title {
    pub is_bad: bool,
    pub name: String,
}

/// The rows that are here, in order.
pub fn titles<R: Files + AllocGlobal + Clone + Drop>(rt: &R) -> io::Result<Vec<Title>> {
    let mut titles = Vec::new(rt.alloc());
    for entry in fs::read_dir(rt, ".")? {
        if let Some(title) = title_of(rt, entry)? {
            titles.push(title)?;
        }
    }
    titles.sort()?;
    Ok(titles)
}

fn title_of<R: Files + AllocGlobal + Clone + Drop>(
    rt: &R,
    entry: io::Result<DirEntry<R>>,
) -> io::Result<Option<Title>> {
    let entry = match entry {
        Ok(entry) => entry,
        // A name that is no text is no row's.
        Err(e) if e.kind() == io::ErrorKind::InvalidFilename => return Ok(None),
        Err(e) => return Err(e),
    };
    match entry.file_name().strip_suffix(".row") {
        Some(name) => Ok(Some(Title {
            is_bad: name.starts_with("bad-"),
            name: String::from_str(rt.alloc(), name)?,
        })),
        None => Ok(None),
    }
}

/// The text of a row's file, or None where it can't be read as text.
pub fn text_of<R: Files + AllocGlobal>(rt: &R, name: &str) -> Result<Option<String>, AllocError> {
    let path = format!(in rt.alloc(); "{name}.row")?;
    match fs::read_to_string(rt, path.as_str()) {
        Ok(text) => Ok(Some(text)),
        Err(e) if e.kind() == io::ErrorKind::OutOfMemory => Err(AllocError),
        Err(_) => Ok(None),
    }
}
