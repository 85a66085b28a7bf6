//! The bytes of one entry.

ghost use Rattle.std.specs.Prelude.{◌≡◌, ◌≤◌, ◌<◌, ◌^◌, length, IfOk};
ghost use Rattle.log_model.specs.Entry.{Entry as TheEntry, IsEntry, entry_frame};
ghost use Rattle.entry_frame.specs.Frame.{IsRefOf};
ghost use Rattle.entry_frame.specs.Spelling.{IsSpelling, renumbered};

use crate::frame::EntryRef;
use crate::owning::own_batch;
use crate::reading::{entry_in, form_of_kind};
use byteorder::{BigEndian, ByteOrder};
use kv_cell::{Batch, NoMemory};
use std::alloc::Global;
use std::marker::Model;

/// Kind, length and body of an entry: what stands after its gate in a log, at most 1,048,581 bytes.
#[derive(Debug)]
pub struct EntryBytes {
    bytes: Vec<u8>,
}

/// By hand, as that of kv_cell's `Octets`: the crates above call it.
impl Drop for EntryBytes {
    fn drop(self) {
        let EntryBytes { bytes: _ } = self;
    }
}

impl Model for EntryBytes {
    ghost use Rattle.std.specs.Prelude.{List, ℕ};
    ghost use Rattle.entry_frame.specs.Spelling.{IsSpelling};

    ghost Value = { List ℕ };

    ghost view = { λ e. e.bytes.items };

    ghost invariant = { λ e. IsSpelling e.bytes.items };
}

impl EntryBytes {
    /// The bytes that spell an entry.
    pub(crate) fn of_spelling(bytes: Vec<u8>) -> EntryBytes
        requires { IsSpelling bytes.items }
        ensures { result ≡ bytes.items }
    {
        EntryBytes { bytes }
    }

    /// How many bytes there are.
    pub fn len(&self) -> usize
        ensures len { result ≡ length self.now }
        ensures within { result ≤ 1048581 }
    {
        self.bytes.len()
    }

    /// The bytes, lent.
    pub fn as_slice(&self) -> &[u8]
        ensures value { result.now ≡ self.now }
        ensures spelled { IsSpelling self.now }
        ensures within { length self.now ≤ 1048581 }
    {
        self.bytes.as_slice()
    }

    /// The cells and the table's name of the entry that these bytes spell, copied.
    pub fn to_batch(&self, alloc: Global) -> Result<Batch, NoMemory>
        ensures { (e : TheEntry) → IsEntry e → self.now ≡ entry_frame e → IfOk result (λ own. own ≡ e.batch) }
    {
        own_batch(alloc, &self.entry())
    }

    /// The entry that these bytes spell, lent. It takes no memory.
    pub fn entry(&self) -> EntryRef<'_>
        ensures is { (e : TheEntry) × IsEntry e × IsRefOf result e }
        ensures only { (e : TheEntry) → IsEntry e → self.now ≡ entry_frame e → IsRefOf result e }
    {
        let form = form_of_kind(self.bytes[0]);
        match entry_in(form, &self.bytes[5..]) {
            Some(entry) => entry,
            None => unreachable!(),
        }
    }

    /// Gives the entry another number, and changes nothing else. It takes no memory.
    pub fn set_number(&mut self, number: u64)
        requires given { 1 ≤ number }
        requires number { number < 2 ^ 48 }
        ensures { (e : TheEntry) → self.old ≡ entry_frame e → self.new ≡ entry_frame (record e { number = number }) }
    {
        write_number(&mut self.bytes, number);
    }
}

/// Writes the number over the one that stands after kind, length and region.
fn write_number(bytes: &mut [u8], number: u64)
    requires { 17 ≤ length bytes.old }
    ensures { bytes.new ≡ renumbered bytes.old number }
{
    BigEndian::write_u64(&mut bytes[9..], number);
}
