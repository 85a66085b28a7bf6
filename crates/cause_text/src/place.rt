//! Where a folder lies.

use std::fmt;
use std::path::{self, PathBuf};
use std::rt::Env;

/// A folder of the working directory, which prints with its whole path, or with its name where the working directory isn't known.
#[derive(Drop)]
pub struct Place<'a> {
    whole: Option<PathBuf>,
    folder: &'a str,
}

impl<'a> Place<'a> {
    /// The folder of this name. Nothing is looked at but the working directory's path.
    pub fn of<R: Env + AllocGlobal>(rt: &R, folder: &'a str) -> Self {
        Place {
            whole: path::absolute(rt, folder).ok(),
            folder,
        }
    }
}

impl fmt::Display for Place<'_> {
    fn fmt<W: fmt::Write>(&self, f: &mut fmt::Formatter<W>) -> fmt::Result {
        match &self.whole {
            Some(path) => f.write_str(path.as_str()),
            None => f.write_str(self.folder),
        }
    }
}
