//! A row, as its file says it.

use crate::output::ExpectedLine;
use disk_fakes::CallKind;
use disk_images::Name;
use std::alloc::{AllocError, Global};

/// A file of a store.
#[derive(Drop)]
pub struct StoredFile {
    pub name: Name,
    pub bytes: Vec<u8>,
}

impl StoredFile {
    /// A second one like it, on the allocator of its bytes.
    pub fn copied(&self) -> Result<StoredFile, AllocError> {
        Ok(StoredFile {
            name: self.name,
            bytes: self.bytes.clone()?,
        })
    }
}

/// The row on whose disk another one begins.
#[derive(Drop)]
pub struct Base {
    pub line: u64,
    pub name: String,
}

/// A call of the outside that can be made to fail.
#[derive(Clone, Copy, PartialEq, Eq)]
pub enum FallibleCall {
    Disk(CallKind),
    /// A read of the script.
    Source,
    /// A write of the output.
    Sink,
}

/// The call of this kind with this number, counted from 1 in its step, fails.
#[derive(Clone, Copy)]
pub struct PlannedFail {
    pub line: u64,
    pub call: FallibleCall,
    pub nth: u64,
}

/// All names that a step leaves.
#[derive(Drop)]
pub struct ExpectedNames {
    pub line: u64,
    pub names: Vec<Name>,
}

/// What one file holds after a step.
#[derive(Drop)]
pub struct ExpectedFile {
    pub line: u64,
    pub file: StoredFile,
}

/// One call of the program, and what must come of it.
#[derive(Drop)]
pub struct Step {
    pub words: Vec<String>,
    pub script: Vec<u8>,
    pub fails: Vec<PlannedFail>,
    pub output: Vec<ExpectedLine>,
    pub status: u8,
    pub status_line: u64,
    pub left: Option<ExpectedNames>,
    pub files: Vec<ExpectedFile>,
    // whether the script, and the output, ended without a line feed
    pub(crate) is_script_over: bool,
    pub(crate) is_output_over: bool,
}

impl Step {
    /// A step with these words of which nothing else is said yet.
    pub fn new(alloc: Global, words: Vec<String>) -> Step {
        Step {
            words,
            script: Vec::new(alloc),
            fails: Vec::new(alloc),
            output: Vec::new(alloc),
            status: 0,
            status_line: 0,
            left: None,
            files: Vec::new(alloc),
            is_script_over: false,
            is_output_over: false,
        }
    }
}

/// A row: what stands on the disk before it, and its steps, one after the other on that disk.
#[derive(Drop)]
pub struct Row {
    pub base: Option<Base>,
    pub files: Vec<StoredFile>,
    pub steps: Vec<Step>,
}

impl Row {
    pub fn new(alloc: Global) -> Row {
        Row {
            base: None,
            files: Vec::new(alloc),
            steps: Vec::new(alloc),
        }
    }
}
