//! The bytes of a store file that wait to be written.

ghost use Rattle.std.specs.Prelude.{◌≡◌, ◌≤◌, ◌+◌, [], ◌++◌, length, IfOk, IsTrue, ◌↔◌};
ghost use Rattle.byteorder.specs.Endian.{big_bytes};
ghost use Rattle.cell_model.specs.Cell.{spelled, spelled_length};
ghost use Rattle.cell_model.specs.declared.form.Form.TheVariants.{Tagged};
ghost use Rattle.store_file.specs.Open.{fields_text};

use kv_cell::{Cell, NoMemory, put, put_u32, put_u64};
use std::alloc::Global;
use std::marker::Model;

/// How many bytes are written at once, at most.
pub const BUFFER_BYTES: usize = 262_144;

/// Room for the bytes of one write, seen as the bytes that stand in it.
#[derive(Debug, Drop)]
pub(crate) struct Buffer {
    bytes: Vec<u8>,
}

impl Model for Buffer {
    ghost use Rattle.std.specs.Prelude.{List, ℕ, ◌≤◌, vec_capacity, vec_len};

    ghost Value = { List ℕ };

    ghost view = { λ b. b.bytes.items };

    ghost invariant = { λ b. (262144 ≤ vec_capacity b.bytes) × (vec_len b.bytes ≤ 262144) };
}

impl Buffer {
    /// An empty buffer, with all the memory that it will need.
    pub(crate) fn new(alloc: Global) -> Result<Buffer, NoMemory>
        ensures { IfOk result (λ buffer. buffer ≡ []) }
    {
        let mut bytes = Vec::new(alloc);
        bytes.reserve(BUFFER_BYTES)?;
        Ok(Buffer { bytes })
    }

    pub(crate) fn as_slice(&self) -> &[u8]
        ensures value { result.now ≡ self.now }
        ensures within { length self.now ≤ 262144 }
    {
        self.bytes.as_slice()
    }

    /// Whether so many bytes more fit in.
    pub(crate) fn has_room(&self, len: usize) -> bool
        ensures { IsTrue result ↔ (length self.now + len ≤ 262144) }
    {
        len <= BUFFER_BYTES - self.bytes.len()
    }

    /// Adds the fields in front of a store's cells, for which there is room.
    pub(crate) fn add_fields(
        &mut self,
        region: u32,
        scope: u8,
        family: &[u8],
        from: u64,
        to: u64,
        count: u64,
    )
        requires short { length family.now ≤ 127 }
        requires room { length self.old + (34 + length family.now) ≤ 262144 }
        ensures bytes { self.new ≡ self.old ++ fields_text region scope family.now from to count }
        ensures len { length self.new ≡ length self.old + (34 + length family.now) }
    {
        put(&mut self.bytes, b"HWS2");
        put_u32(&mut self.bytes, region);
        put(&mut self.bytes, &[scope, family.len() as u8]);
        put(&mut self.bytes, family);
        put_u64(&mut self.bytes, from);
        put_u64(&mut self.bytes, to);
        put_u64(&mut self.bytes, count);
    }

    /// Adds a cell with its number in front, for which there is room.
    pub(crate) fn add_pair(&mut self, number: u64, cell: &Cell)
        requires { length self.old + (8 + spelled_length Tagged cell.now) ≤ 262144 }
        ensures bytes { self.new ≡ self.old ++ (big_bytes 8 number ++ spelled Tagged cell.now) }
        ensures len { length self.new ≡ length self.old + (8 + spelled_length Tagged cell.now) }
    {
        put_u64(&mut self.bytes, number);
        cell.put_tagged(&mut self.bytes);
    }

    pub(crate) fn clear(&mut self)
        ensures { self.new ≡ [] }
    {
        self.bytes.clear();
    }
}
