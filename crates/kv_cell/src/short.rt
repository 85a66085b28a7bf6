//! Few bytes, in the value itself.

ghost use Rattle.std.specs.Prelude.{◌≡◌, ◌≤◌, length};

use std::marker::Model;

/// So many bytes at most, as most rows, qualifiers and families have.
pub(crate) const MOST: usize = 16;

/// At most 16 bytes, which take no block of memory. Contracts see the list.
#[derive(Drop)]
pub(crate) struct ShortOctets {
    room: [u8; MOST],
    len: usize,
}

impl Model for ShortOctets {
    ghost use Rattle.std.specs.Prelude.{List, ℕ, take, ◌≤◌};

    ghost Value = { List ℕ };

    ghost view = { λ s. take s.len s.room };

    ghost invariant = { λ s. s.len ≤ 16 };
}

impl ShortOctets {
    /// The same bytes, copied.
    pub(crate) fn copy_of(bytes: &[u8]) -> ShortOctets
        requires few { length bytes.now ≤ 16 }
        ensures { result ≡ bytes.now }
    {
        let len = bytes.len();
        let mut room = [0; MOST];
        room[..len].copy_from_slice(bytes);
        ShortOctets { room, len }
    }

    /// The bytes, lent.
    pub(crate) fn as_slice(&self) -> &[u8]
        ensures { result.now ≡ self.now }
    {
        &self.room[..self.len]
    }
}
