//! A number that was begun.

ghost use Rattle.std.specs.Prelude.{◌≡◌};

use std::marker::Model;

/// A number that was begun and not completed. It can't be let go: only `WriteQueue::complete` spends it.
#[derive(Debug)]
pub struct WriteEntry {
    number: u64,
}

impl Model for WriteEntry {
    ghost use Rattle.std.specs.Prelude.{ℕ};

    ghost Value = { ℕ };

    ghost view = { λ e. e.number };
}

impl WriteEntry {
    pub(crate) fn of(number: u64) -> WriteEntry
        ensures { result ≡ number }
    {
        WriteEntry { number }
    }

    pub(crate) fn spend(self) -> u64
        ensures { result ≡ self }
    {
        let WriteEntry { number } = self;
        number
    }

    pub fn number(&self) -> u64
        ensures { result ≡ self.now }
    {
        self.number
    }
}
