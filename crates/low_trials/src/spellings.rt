//! Texts that are names, and texts that are none.

use crate::steps::Its::{self, Edits, Log, Old, Store};
use disk_folder::name_of;
use std::test::*;

/// A text, and the file that it names.
const SPELLINGS: &[(&str, Option<Its>)] = &[
    ("log-1", Some(Log(1))),
    ("old-20", Some(Old(20))),
    ("store-3-12", Some(Store(3, 12))),
    ("edits-64-5", Some(Edits(64, 5))),
    ("log-0", Some(Log(0))),
    (
        "store-4294967295-18446744073709551615",
        Some(Store(4_294_967_295, 18_446_744_073_709_551_615)),
    ),
    ("store-4294967296-1", None),
    ("log-18446744073709551616", None),
    ("log-00", None),
    ("log--1", None),
    ("Log-1", None),
    ("log-1-1", None),
    ("store-3", None),
    ("", None),
];

/// Whether the text names this file, or none.
fn names(text: &str, file: Option<Its>) -> bool {
    match (name_of(text), file) {
        (Some(name), Some(file)) => name == file.name(),
        (None, None) => true,
        _ => false,
    }
}

#[test]
fn spellings(rt: HostRuntime) {
    for (text, file) in SPELLINGS {
        assert!(rt; names(text, *file), "at {text}");
    }
}
