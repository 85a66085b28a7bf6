//! The words that a row's lines begin with, and the fields after them.

use crate::fault::LineFault;
use crate::row::{FallibleCall, PlannedFail};
use disk_fakes::CallKind;
use disk_folder::name_of;
use disk_images::Name;
use std::alloc::Global;

/// What a line of a row is.
#[derive(Clone, Copy, PartialEq, Eq)]
pub enum LineKind {
    Call,
    Script,
    ScriptEnd,
    Output,
    OutputEnd,
    Fail,
    Status,
    Left,
    Bytes,
    More,
    From,
    File,
    Repeat,
    Done,
}

const KINDS: [(&str, LineKind); 14] = [
    ("$", LineKind::Call),
    ("<", LineKind::Script),
    ("<-", LineKind::ScriptEnd),
    (">", LineKind::Output),
    (">-", LineKind::OutputEnd),
    ("fail", LineKind::Fail),
    ("status", LineKind::Status),
    ("left", LineKind::Left),
    ("bytes", LineKind::Bytes),
    ("+", LineKind::More),
    ("from", LineKind::From),
    ("file", LineKind::File),
    ("repeat", LineKind::Repeat),
    ("done", LineKind::Done),
];

/// What the first word of a line says that it is.
pub fn kind_of(word: &str) -> Result<LineKind, LineFault> {
    for (spelled, kind) in KINDS {
        if spelled == word {
            return Ok(kind);
        }
    }
    Err(LineFault::Word)
}

const CALLS: [(&str, FallibleCall); 11] = [
    ("names", FallibleCall::Disk(CallKind::Names)),
    ("size", FallibleCall::Disk(CallKind::Size)),
    ("read", FallibleCall::Disk(CallKind::Read)),
    ("create", FallibleCall::Disk(CallKind::Create)),
    ("write", FallibleCall::Disk(CallKind::WriteAt)),
    ("sync", FallibleCall::Disk(CallKind::Sync)),
    ("rename", FallibleCall::Disk(CallKind::Rename)),
    ("remove", FallibleCall::Disk(CallKind::Remove)),
    ("settle", FallibleCall::Disk(CallKind::Settle)),
    ("source", FallibleCall::Source),
    ("sink", FallibleCall::Sink),
];

fn call_of(word: &str) -> Result<FallibleCall, LineFault> {
    for (spelled, call) in CALLS {
        if spelled == word {
            return Ok(call);
        }
    }
    Err(LineFault::NoCall)
}

/// The word and the rest of a line that are parted by one space.
pub fn parted(text: &str) -> (&str, &str) {
    match text.split_once(' ') {
        Some(parts) => parts,
        None => (text, ""),
    }
}

/// `CALL NUMBER`, the number from 1 on.
pub fn fail_of(line: u64, text: &str) -> Result<PlannedFail, LineFault> {
    let (word, number) = parted(text);
    let call = call_of(word)?;
    match number.parse::<u64>() {
        Ok(nth) if nth > 0 => Ok(PlannedFail { line, call, nth }),
        _ => Err(LineFault::NoNumber),
    }
}

/// Words with spaces between them.
pub fn words_of(alloc: Global, text: &str) -> Result<Vec<String>, LineFault> {
    let mut words = Vec::new(alloc);
    for word in text.split(' ') {
        if !word.is_empty() {
            add_word(alloc, &mut words, word)?;
        }
    }
    Ok(words)
}

fn add_word(alloc: Global, words: &mut Vec<String>, word: &str) -> Result<(), LineFault> {
    let word = String::from_str(alloc, word)?;
    words.push(word)?;
    Ok(())
}

/// Names with spaces between them, in order.
pub fn names_of(alloc: Global, text: &str) -> Result<Vec<Name>, LineFault> {
    let mut names = Vec::new(alloc);
    add_names(&mut names, text)?;
    names.sort()?;
    Ok(names)
}

fn add_names(names: &mut Vec<Name>, text: &str) -> Result<(), LineFault> {
    for word in text.split(' ') {
        if !word.is_empty() {
            names.push(one_name(word)?)?;
        }
    }
    Ok(())
}

/// The name of a store's file.
pub fn one_name(word: &str) -> Result<Name, LineFault> {
    match name_of(word) {
        Some(name) => Ok(name),
        None => Err(LineFault::NoName),
    }
}
