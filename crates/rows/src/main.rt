//! Runs worked rows: the files `NAME.row` in the folder where it is started. Each tells calls of the program on a disk in
//! memory, and what must come of them; `docs/ROWS.md` has the form.
//!
//! It prints `NAME ok` for each row that holds, and else `NAME:LINE: WHAT` for what differs. It ends with status 0 where
//! every row holds, else with 1, and with 2 where it couldn't run them. Rows whose names begin with `bad-` come last and
//! count for nothing: each has something wrong in it, and the stored output of this program says what must be told.
#![tactic(auto)]

mod book;
mod disk;
mod error;
mod folder;
mod row_run;
mod step_run;

use book::{Book, Entry};
use error::RowsError;
use row_files::Difference;
use row_run::told_of;
use std::process::ExitCode;
use std::sync::Wait;
use std::thread::Threads;

/// Runs each row and prints what is told of it. Tells whether every row holds.
fn run_rows<R: Print + Threads + Wait + Sync + AllocGlobal>(
    rt: &R,
    book: &Book,
) -> Result<bool, RowsError> {
    let mut are_well = true;
    for entry in book.entries() {
        are_well = run_row(rt, book, entry)? && are_well;
    }
    Ok(are_well)
}

/// Whether this row holds, or is one that must not.
fn run_row<R: Print + Threads + Wait + Sync + AllocGlobal>(
    rt: &R,
    book: &Book,
    entry: &Entry,
) -> Result<bool, RowsError> {
    let told = told_of(rt, book, entry)?;
    print_told(rt, entry.title.name.as_str(), &told)?;
    Ok(told.is_empty() || entry.title.is_bad)
}

fn print_told<R: Print>(rt: &R, name: &str, told: &[Difference]) -> Result<(), RowsError> {
    if told.is_empty() {
        println!(rt; "{name} ok")?;
    }
    for it in told {
        let line = it.line;
        let what = it.what.as_str();
        println!(rt; "{name}:{line}: {what}")?;
    }
    Ok(())
}

fn main(rt: HostRuntime) -> ExitCode {
    let are_well = match Book::read(&rt) {
        Ok(book) => run_rows(&rt, &book),
        Err(fault) => Err(fault),
    };
    match are_well {
        Ok(true) => ExitCode::SUCCESS,
        Ok(false) => ExitCode::FAILURE,
        Err(fault) => {
            let _ = eprintln!(rt; "rows: {fault}");
            ExitCode::from(2)
        }
    }
}
