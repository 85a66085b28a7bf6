//! What stands in a log file.

ghost use Rattle.std.specs.Prelude.{◌≡◌};

use entry_frame::Entry;
use std::marker::Model;

/// Entries, seen as a list.
#[derive(Debug, Drop)]
pub struct EntryList {
    entries: Vec<Entry>,
}

impl Model for EntryList {
    ghost use Rattle.std.specs.Prelude.{List};
    ghost use Rattle.log_model.specs.Entry.{Entry};

    ghost Value = { List Entry };

    ghost view = { λ l. l.entries.items };
}

impl EntryList {
    pub fn of(entries: Vec<Entry>) -> EntryList
        ensures { result ≡ entries.items }
    {
        EntryList { entries }
    }

    pub fn as_slice(&self) -> &[Entry]
        ensures { result.now ≡ self.now }
    {
        self.entries.as_slice()
    }

    pub fn into_vec(self) -> Vec<Entry>
        ensures { result.items ≡ self }
    {
        self.entries
    }
}

/// The entries of a log file, and the count of its end frame, if it has one.
#[derive(Debug, Drop)]
pub struct LogText {
    pub entries: EntryList,
    pub ended: Option<u64>,
}
