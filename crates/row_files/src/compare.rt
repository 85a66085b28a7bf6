//! In what a run of a step differs from what its row says.

use crate::output::{Difference, add_output};
use crate::row::{ExpectedFile, ExpectedNames, Step, StoredFile};
use crate::showing::{ShownByte, add_names};
use disk_folder::Spelled;
use disk_images::Name;
use std::alloc::{AllocError, Global};

/// What a step's run printed and left. Its files stand in the order of their names.
#[derive(Clone, Copy)]
pub struct Found<'a> {
    pub status: u8,
    pub output: &'a [u8],
    pub files: &'a [StoredFile],
}

/// Tells of each kind the first difference: the output, the status, the names left, and what files hold.
pub fn add_differences(
    alloc: Global,
    told: &mut Vec<Difference>,
    step: &Step,
    found: Found<'_>,
) -> Result<(), AllocError> {
    let line = step.status_line;
    add_output(alloc, told, &step.output, line, found.output)?;
    if step.status != found.status {
        told.push(status_difference(alloc, line, step.status, found.status)?)?;
    }
    add_left(alloc, told, &step.left, found.files)?;
    add_contents(alloc, told, &step.files, found.files)
}

fn status_difference(
    alloc: Global,
    line: u64,
    wanted: u8,
    status: u8,
) -> Result<Difference, AllocError> {
    let what = format!(in alloc; "status: expected {wanted}, found {status}")?;
    Ok(Difference { line, what })
}

fn add_left(
    alloc: Global,
    told: &mut Vec<Difference>,
    left: &Option<ExpectedNames>,
    files: &[StoredFile],
) -> Result<(), AllocError> {
    match left {
        Some(left) if !are_named(files, &left.names) => {
            let line = left.line;
            let mut what = String::new(alloc);
            tell_names(alloc, &mut what, &left.names, files)?;
            told.push(Difference { line, what })?;
            Ok(())
        }
        _ => Ok(()),
    }
}

fn are_named(files: &[StoredFile], names: &[Name]) -> bool {
    files.len() == names.len()
        && files
            .iter()
            .zip(names)
            .all(|(file, name)| file.name == *name)
}

fn tell_names(
    alloc: Global,
    what: &mut String,
    wanted: &[Name],
    files: &[StoredFile],
) -> Result<(), AllocError> {
    what.push_str("left: expected ")?;
    add_names(alloc, what, wanted)?;
    what.push_str(", found ")?;
    let names = names_of(alloc, files)?;
    add_names(alloc, what, &names)
}

fn names_of(alloc: Global, files: &[StoredFile]) -> Result<Vec<Name>, AllocError> {
    let mut names = Vec::new(alloc);
    for file in files {
        names.push(file.name)?;
    }
    Ok(names)
}

/// Tells the first file that isn't there or holds other bytes.
fn add_contents(
    alloc: Global,
    told: &mut Vec<Difference>,
    expected: &[ExpectedFile],
    files: &[StoredFile],
) -> Result<(), AllocError> {
    for it in expected {
        let name = it.file.name;
        let found = files.iter().find(|file| file.name == name);
        if !is_held(found, &it.file.bytes) {
            return add_content(alloc, told, it, found);
        }
    }
    Ok(())
}

fn is_held(found: Option<&StoredFile>, wanted: &[u8]) -> bool {
    match found {
        None => false,
        Some(file) => file.bytes.as_slice() == wanted,
    }
}

fn add_content(
    alloc: Global,
    told: &mut Vec<Difference>,
    expected: &ExpectedFile,
    found: Option<&StoredFile>,
) -> Result<(), AllocError> {
    let (line, file) = (expected.line, &expected.file);
    let what = match found {
        None => told_of_none(alloc, file.name)?,
        Some(found) => told_of_bytes(alloc, file.name, &file.bytes, &found.bytes)?,
    };
    told.push(Difference { line, what })?;
    Ok(())
}

fn told_of_none(alloc: Global, name: Name) -> Result<String, AllocError> {
    let name = Spelled(name);
    format!(in alloc; "bytes: {name} is not there")
}

/// At the first byte that differs.
fn told_of_bytes(
    alloc: Global,
    name: Name,
    wanted: &[u8],
    found: &[u8],
) -> Result<String, AllocError> {
    let name = Spelled(name);
    let (length, count) = (wanted.len(), found.len());
    let place = first_difference(wanted, found);
    let byte = ShownByte(wanted.get(place).copied());
    let other = ShownByte(found.get(place).copied());
    format!(in alloc;
        "bytes: {name} differs at {place}: expected {byte} of {length} bytes, found {other} of {count}"
    )
}

/// How many bytes stand before the first that differs.
fn first_difference(one: &[u8], other: &[u8]) -> usize {
    one.iter()
        .zip(other.iter())
        .take_while(|pair| pair.0 == pair.1)
        .count()
}
