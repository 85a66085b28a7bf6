//! The synced numbers of a berth.
ghost use Rattle.std.specs.Prelude.{◌≡◌};

use std::marker::Model;

/// One number for each region of a berth, region 1 first. Contracts see it as a list.
#[derive(Drop)]
pub struct SyncedList {
    numbers: Vec<u64>,
}

impl Model for SyncedList {
    ghost use Rattle.std.specs.Prelude.{ℕ, List};

    ghost Value = { List ℕ };

    ghost view = { λ s. s.numbers.items };
}

impl SyncedList {
    /// The list of these numbers.
    pub fn of(numbers: Vec<u64>) -> SyncedList
        ensures { result ≡ numbers.items }
    {
        SyncedList { numbers }
    }

    /// The numbers, region 1 first.
    pub fn as_slice(&self) -> &[u64]
        ensures { result.now ≡ self.now }
    {
        self.numbers.as_slice()
    }

    /// The numbers as a vector.
    pub fn into_vec(self) -> Vec<u64>
        ensures { result.items ≡ self }
    {
        self.numbers
    }
}
