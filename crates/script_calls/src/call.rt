//! A call of a handler, and the calls of one handler.

ghost use Rattle.std.specs.Prelude.{◌≡◌, OnOk, OnErr, [], ◌∷◌, ◌++◌, length, map};
ghost use Rattle.script_calls.specs.Calls.{call_of};

use kv_cell::{Batch, Durability, NoMemory, Octets};
use std::marker::Model;

/// A call of a handler. Regions are counted from 1.
#[derive(Debug, Drop)]
pub enum Call {
    /// Puts the cells of one edit, and waits for the log where the durability says so.
    Put {
        region: u32,
        durability: Durability,
        batch: Batch,
    },
    /// Reads the rows at or above `from`, and below `to` unless it is empty.
    Scan {
        region: u32,
        from: Octets,
        to: Octets,
    },
    /// Reads a row, in which deletes mask and of each column the newest so many versions are seen.
    Get {
        region: u32,
        row: Octets,
        versions: u32,
    },
    /// Writes the region's memory to a store file: the cells of one family, of 1 to 127 bytes, or those of all.
    Flush {
        region: u32,
        family: Option<Octets>,
    },
    /// Ends the log's file and begins the next one.
    Roll,
}

/// The calls of one handler, in their order. Contracts see the list.
#[derive(Debug)]
pub struct CallList {
    calls: Vec<Call>,
}

/// By hand, as that of kv_cell's `Octets`: the crates above call it.
impl Drop for CallList {
    fn drop(self) {
        let CallList { calls: _ } = self;
    }
}

impl Model for CallList {
    ghost use Rattle.std.specs.Prelude.{List, map};
    ghost use Rattle.region_model.specs.Calls.{Call as TheCall};

    ghost Value = { List TheCall };

    ghost use Rattle.script_calls.specs.Calls.{call_of};

    ghost view = { λ l. map call_of l.calls.items };
}

impl CallList {
    /// The vector's calls. It takes no memory.
    pub fn of(calls: Vec<Call>) -> CallList
        ensures { result ≡ map call_of calls.items }
    {
        CallList { calls }
    }

    /// The calls as a vector again. It takes no memory.
    pub fn into_vec(self) -> Vec<Call>
        ensures { map call_of result.items ≡ self }
    {
        let CallList { calls } = self;
        calls
    }

    /// The number of calls.
    pub fn len(&self) -> usize
        ensures { result ≡ length self.now }
    {
        self.calls.len()
    }

    /// The calls, lent.
    pub fn as_slice(&self) -> &[Call]
        ensures { map call_of result.now ≡ self.now }
    {
        self.calls.as_slice()
    }

    /// Adds a call after the others. Where memory runs out the list stays as it was.
    pub fn push(&mut self, call: Call) -> Result<(), NoMemory>
        ensures ok { OnOk result (self.new ≡ self.old ++ call_of call ∷ []) }
        ensures err { OnErr result (self.new ≡ self.old) }
    {
        self.calls.push(call)?;
        Ok(())
    }
}
