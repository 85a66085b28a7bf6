//! A script: its head lines, and the calls of each handler.

ghost use Rattle.std.specs.Prelude.{◌≡◌, length};

use crate::call::CallList;
use std::marker::Model;

/// The calls of handler 1, of handler 2, and so on. Contracts see a list of lists.
#[derive(Debug, Drop)]
pub struct HandlerList {
    lists: Vec<CallList>,
}

impl Model for HandlerList {
    ghost use Rattle.std.specs.Prelude.{List};
    ghost use Rattle.region_model.specs.Calls.{Call as TheCall};

    ghost Value = { List (List TheCall) };

    ghost view = { λ h. h.lists.items };
}

impl HandlerList {
    /// The vector's lists, that of handler 1 first. It takes no memory.
    pub fn of(lists: Vec<CallList>) -> HandlerList
        ensures { result ≡ lists.items }
    {
        HandlerList { lists }
    }

    /// The lists as a vector again. It takes no memory.
    pub fn into_vec(self) -> Vec<CallList>
        ensures { result.items ≡ self }
    {
        self.lists
    }

    /// The number of handlers.
    pub fn len(&self) -> usize
        ensures { result ≡ length self.now }
    {
        self.lists.len()
    }

    /// The lists, lent.
    pub fn as_slice(&self) -> &[CallList]
        ensures { result.now ≡ self.now }
    {
        self.lists.as_slice()
    }
}

/// A script: the time in milliseconds that each of its edits has, the number of regions, and the calls of each
/// handler. Contracts see the record of the definitions.
#[derive(Debug, Drop)]
pub struct Script {
    /// In milliseconds: each edit has it, and each cell whose timestamp is `now`.
    pub time: u64,
    /// How many there are. They are counted from 1.
    pub regions: u32,
    /// The calls of handler 1 first.
    pub handlers: HandlerList,
}

impl Model for Script {
    ghost use Rattle.script_model.specs.Calls.{Script as TheScript};

    ghost Value = { TheScript };

    ghost view = { λ s. record { time = s.time; regions = s.regions; handlers = s.handlers } };
}
