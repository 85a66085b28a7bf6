//! What a line of a row's file adds to the row or to one of its steps.

use crate::fault::LineFault;
use crate::hexadecimal::add_bytes;
use crate::output::add_expected;
use crate::piece::add_script;
use crate::row::{Base, ExpectedFile, ExpectedNames, PlannedFail, Row, Step, StoredFile};
use crate::words::{LineKind, fail_of, names_of, one_name, parted, words_of};
use std::alloc::Global;

impl Row {
    /// A line before the first step.
    pub fn take(
        &mut self,
        alloc: Global,
        line: u64,
        kind: LineKind,
        text: &str,
    ) -> Result<(), LineFault> {
        match kind {
            LineKind::File => add_file(alloc, &mut self.files, text),
            LineKind::More => match self.files.last_mut() {
                Some(file) => add_bytes(&mut file.bytes, text),
                None => Err(LineFault::NothingToExtend),
            },
            _ => set_base(alloc, &mut self.base, line, text),
        }
    }

    /// A step with these words.
    pub fn begin_step(&mut self, alloc: Global, words: &str) -> Result<(), LineFault> {
        let words = words_of(alloc, words)?;
        self.steps.push(Step::new(alloc, words))?;
        Ok(())
    }
}

impl Step {
    /// A line of the step, in the turn of this number where it is repeated.
    pub fn take(
        &mut self,
        alloc: Global,
        line: u64,
        kind: LineKind,
        text: &str,
        turn: Option<u64>,
    ) -> Result<(), LineFault> {
        match kind {
            LineKind::Script | LineKind::ScriptEnd => {
                let is_ended = kind == LineKind::Script;
                see_open(&mut self.is_script_over, is_ended)?;
                add_script(alloc, &mut self.script, text, is_ended, turn)
            }
            LineKind::Output | LineKind::OutputEnd => {
                let is_ended = kind == LineKind::Output;
                see_open(&mut self.is_output_over, is_ended)?;
                add_expected(alloc, &mut self.output, line, text, is_ended, turn)
            }
            LineKind::Fail => add_fail(&mut self.fails, line, text),
            LineKind::Status => self.end(line, text),
            LineKind::Bytes => expect_file(alloc, &mut self.files, line, text),
            LineKind::More => match self.files.last_mut() {
                Some(expected) => add_bytes(&mut expected.file.bytes, text),
                None => Err(LineFault::NothingToExtend),
            },
            _ => expect_names(alloc, &mut self.left, line, text),
        }
    }

    fn end(&mut self, line: u64, text: &str) -> Result<(), LineFault> {
        match text.parse::<u8>() {
            Ok(number) => {
                self.status = number;
                self.status_line = line;
                Ok(())
            }
            Err(_) => Err(LineFault::NoNumber),
        }
    }
}

/// Refuses a line after the last one, which is the first without its line feed.
fn see_open(is_over: &mut bool, is_ended: bool) -> Result<(), LineFault> {
    if *is_over {
        return Err(LineFault::BehindLast);
    }
    *is_over = !is_ended;
    Ok(())
}

/// `NAME HEX`, which the next line may go on with.
fn file_of(alloc: Global, text: &str) -> Result<StoredFile, LineFault> {
    let (name, spelled) = parted(text);
    let name = one_name(name)?;
    let mut bytes = Vec::new(alloc);
    add_bytes(&mut bytes, spelled)?;
    Ok(StoredFile { name, bytes })
}

/// A file that stands before the first step.
fn add_file(alloc: Global, files: &mut Vec<StoredFile>, text: &str) -> Result<(), LineFault> {
    let file = file_of(alloc, text)?;
    if files.iter().any(|other| other.name == file.name) {
        return Err(LineFault::Twice);
    }
    files.push(file)?;
    Ok(())
}

/// The row on whose disk this one begins.
fn set_base(
    alloc: Global,
    base: &mut Option<Base>,
    line: u64,
    name: &str,
) -> Result<(), LineFault> {
    if base.is_some() {
        return Err(LineFault::Twice);
    }
    if name.is_empty() {
        return Err(LineFault::NoRow);
    }
    let name = String::from_str(alloc, name)?;
    *base = Some(Base { line, name });
    Ok(())
}

/// A call that is to fail.
fn add_fail(fails: &mut Vec<PlannedFail>, line: u64, text: &str) -> Result<(), LineFault> {
    fails.push(fail_of(line, text)?)?;
    Ok(())
}

/// What a file holds after the step.
fn expect_file(
    alloc: Global,
    files: &mut Vec<ExpectedFile>,
    line: u64,
    text: &str,
) -> Result<(), LineFault> {
    let file = file_of(alloc, text)?;
    files.push(ExpectedFile { line, file })?;
    Ok(())
}

/// All names that the step leaves.
fn expect_names(
    alloc: Global,
    left: &mut Option<ExpectedNames>,
    line: u64,
    text: &str,
) -> Result<(), LineFault> {
    if left.is_some() {
        return Err(LineFault::Twice);
    }
    let names = names_of(alloc, text)?;
    *left = Some(ExpectedNames { line, names });
    Ok(())
}
