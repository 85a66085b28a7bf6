//! Bytes that are mostly none.

ghost use Rattle.std.specs.Prelude.{◌≡◌, ◌↔◌, [], IfOk, IsTrue, length};

use crate::error::NoMemory;
use crate::octets::Octets;
use std::alloc::Global;
use std::marker::Model;

/// Bytes that few values have, as the tags of a cell: where there are none they take 16 bytes in the value itself, and no
/// block of memory. Contracts see the list.
#[derive(Debug)]
pub struct RareOctets {
    bytes: Option<Box<Octets>>,
}

/// By hand, as that of `Octets`.
impl Drop for RareOctets {
    fn drop(self) {
        let RareOctets { bytes: _ } = self;
    }
}

impl Model for RareOctets {
    ghost use Rattle.std.specs.Prelude.{List, ℕ};
    ghost use Rattle.kv_cell.specs.Rare.{bytes_in};

    ghost Value = { List ℕ };

    ghost view = { λ t. bytes_in t.bytes };
}

impl RareOctets {
    /// No bytes. It takes no memory.
    pub fn none() -> RareOctets
        ensures { result ≡ [] }
    {
        RareOctets { bytes: None }
    }

    /// The same bytes, copied. Where there are none it takes no memory.
    pub fn copy_of(alloc: Global, bytes: &[u8]) -> Result<RareOctets, NoMemory>
        ensures { IfOk result (λ t. t ≡ bytes.now) }
    {
        if bytes.is_empty() {
            return Ok(RareOctets::none());
        }
        let owned = Octets::copy_of(alloc, bytes)?;
        Ok(RareOctets {
            bytes: Some(Box::new(alloc, owned)?),
        })
    }

    /// The number of bytes.
    pub fn len(&self) -> usize
        ensures { result ≡ length self.now }
    {
        self.as_slice().len()
    }

    /// Whether there is no byte.
    pub fn is_empty(&self) -> bool
        ensures { IsTrue result ↔ (self.now ≡ []) }
    {
        self.as_slice().is_empty()
    }

    /// The bytes, lent.
    pub fn as_slice(&self) -> &[u8]
        ensures { result.now ≡ self.now }
    {
        match &self.bytes {
            None => &[],
            Some(bytes) => bytes.as_slice(),
        }
    }
}
