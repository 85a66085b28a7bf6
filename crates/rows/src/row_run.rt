//! A row's run, on the disk that the row below it left.

use crate::book::{BaseFault, Book, Entry};
use crate::error::RowsError;
use crate::step_run::run_step;
use row_files::{Difference, Row, RowFault, StoredFile};
use std::alloc::{AllocError, Global};
use std::sync::Wait;
use std::thread::Threads;

/// What is told of a row: nothing where it holds.
pub fn told_of<R: Threads + Wait + Sync + AllocGlobal>(
    rt: &R,
    book: &Book,
    entry: &Entry,
) -> Result<Vec<Difference>, RowsError> {
    let mut told = Vec::new(rt.alloc());
    match &entry.row {
        Ok(row) => tell_row(rt, book, row, &mut told)?,
        Err(fault) => tell_form(rt.alloc(), &mut told, *fault)?,
    }
    Ok(told)
}

fn tell_row<R: Threads + Wait + Sync + AllocGlobal>(
    rt: &R,
    book: &Book,
    row: &Row,
    told: &mut Vec<Difference>,
) -> Result<(), RowsError> {
    match book.bases(rt.alloc(), row)? {
        Ok(bases) => {
            let below = files_below(rt, &bases)?;
            let _ = run_steps(rt, row, below, told)?;
            Ok(())
        }
        Err(fault) => Ok(tell_base(rt.alloc(), told, row, fault)?),
    }
}

/// The files that the rows below leave, the nearest of which is the first. In what these rows differ isn't told.
fn files_below<R: Threads + Wait + Sync + AllocGlobal>(
    rt: &R,
    bases: &[&Row],
) -> Result<Vec<StoredFile>, RowsError> {
    let mut files = Vec::new(rt.alloc());
    let mut untold = Vec::new(rt.alloc());
    for row in bases.iter().rev() {
        files = run_steps(rt, row, files, &mut untold)?;
    }
    Ok(files)
}

/// Runs a row's steps on a disk with these files and those of the row, each step on the disk that those before it left.
fn run_steps<R: Threads + Wait + Sync + AllocGlobal>(
    rt: &R,
    row: &Row,
    below: Vec<StoredFile>,
    told: &mut Vec<Difference>,
) -> Result<Vec<StoredFile>, RowsError> {
    let mut files = with_files(below, &row.files)?;
    for step in &row.steps {
        files = run_step(rt, step, &files, told)?;
    }
    Ok(files)
}

/// These files, with others in the place of those with the same names.
fn with_files(below: Vec<StoredFile>, above: &[StoredFile]) -> Result<Vec<StoredFile>, AllocError> {
    let mut files = below;
    files.retain(|file| above.iter().all(|other| other.name != file.name));
    for file in above {
        files.push(file.copied()?)?;
    }
    Ok(files)
}

fn tell_form(alloc: Global, told: &mut Vec<Difference>, fault: RowFault) -> Result<(), AllocError> {
    let (line, reason) = (fault.line, fault.fault);
    let what = format!(in alloc; "form: {reason}")?;
    told.push(Difference { line, what })?;
    Ok(())
}

fn tell_base(
    alloc: Global,
    told: &mut Vec<Difference>,
    row: &Row,
    fault: BaseFault,
) -> Result<(), AllocError> {
    let why = match fault {
        BaseFault::Missing => "from: there is no row of this name",
        BaseFault::Wrong => "from: a row below is not read",
        BaseFault::Circle => "from: the rows stand on one another in a circle",
    };
    let line = row.base.as_ref().map_or(0, |base| base.line);
    let what = String::from_str(alloc, why)?;
    told.push(Difference { line, what })?;
    Ok(())
}
