//! All rows, as they were read.

use crate::error::RowsError;
use crate::folder::{Title, text_of, titles};
use row_files::{Base, LineFault, Row, RowFault, read_row};
use std::alloc::{AllocError, Global};
use std::rt::Files;

/// A row's name, and what its file says or what is wrong with it.
#[derive(Drop)]
pub struct Entry {
    pub title: Title,
    pub row: Result<Row, RowFault>,
}

#[derive(Drop)]
pub struct Book {
    entries: Vec<Entry>,
}

/// Why the disk on which a row begins cannot be had.
#[derive(Clone, Copy)]
pub enum BaseFault {
    Missing,
    Wrong,
    Circle,
}

impl Book {
    /// Reads each row of the folder.
    pub fn read<R: Files + AllocGlobal + Clone + Drop>(rt: &R) -> Result<Book, RowsError> {
        let mut entries = Vec::new(rt.alloc());
        for title in titles(rt)? {
            entries.push(entry_of(rt, title)?)?;
        }
        if entries.is_empty() {
            return Err(RowsError::NoRows);
        }
        Ok(Book { entries })
    }

    /// The rows in the order in which they are run.
    pub fn entries(&self) -> &[Entry] {
        &self.entries
    }

    fn base(&self, base: &Base) -> Result<&Row, BaseFault> {
        let found = self
            .entries
            .iter()
            .find(|entry| entry.title.name.as_str() == base.name.as_str());
        match found {
            None => Err(BaseFault::Missing),
            Some(entry) => match &entry.row {
                Ok(row) => Ok(row),
                Err(_) => Err(BaseFault::Wrong),
            },
        }
    }

    /// The rows on whose disks this one stands, the nearest first. There are no more than there are rows, unless they stand
    /// on one another in a circle.
    pub fn bases<'a>(
        &'a self,
        alloc: Global,
        row: &'a Row,
    ) -> Result<Result<Vec<&'a Row>, BaseFault>, AllocError> {
        let mut bases = Vec::new(alloc);
        let mut current = row;
        for _ in 0..self.entries.len() {
            let Some(base) = &current.base else {
                return Ok(Ok(bases));
            };
            match self.base(base) {
                Ok(row) => current = row,
                Err(fault) => return Ok(Err(fault)),
            }
            bases.push(current)?;
        }
        Ok(Err(BaseFault::Circle))
    }
}

fn entry_of<R: Files + AllocGlobal>(rt: &R, title: Title) -> Result<Entry, AllocError> {
    let row = read_entry(rt, title.name.as_str())?;
    Ok(Entry { title, row })
}

fn read_entry<R: Files + AllocGlobal>(
    rt: &R,
    name: &str,
) -> Result<Result<Row, RowFault>, AllocError> {
    let Some(text) = text_of(rt, name)? else {
        return Ok(Err(RowFault {
            line: 1,
            fault: LineFault::NoText,
        }));
    };
    Ok(read_row(rt.alloc(), text.as_str()))
}
