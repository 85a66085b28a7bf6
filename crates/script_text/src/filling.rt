//! The cells of the put that is open.

ghost use Rattle.std.specs.Prelude.{◌≡◌, ◌==◌, ◌+◌, ◌<◌, ◌≤◌, [], IfOk, OnErr, OnOk, length, not};
ghost use Rattle.cell_model.specs.Batch.{batch_of, body_length, is_plain};
ghost use Rattle.script_model.specs.Fields.{one_more, room_fault};
ghost use Rattle.script_lines.specs.Why.{Tells};

use kv_cell::{Batch, BatchError, Cell, NoMemory, Octets};
use script_lines::{LineError, ScriptWhy};
use std::alloc::Global;
use std::marker::Model;

/// The name of the script's table, and the cells of the open put so far. Contracts see the batch of both.
///
/// How long the body of the put's log entry is follows from two things that each cell adds to, so that no cell is
/// looked at again for the cells after it: while there is neither a name nor tags it is 24 bytes and the plain
/// spellings, each two bytes shorter than the tagged one, else 25 bytes, the name, and the tagged spellings of all cells.
#[derive(Drop)]
pub struct Filling {
    table: Octets,
    cells: Vec<Cell>,
    /// The length in bytes of the cells' tagged spellings.
    tagged_len: usize,
    /// Whether no cell has tags.
    untagged: bool,
}

impl Model for Filling {
    ghost use Rattle.cell_model.specs.Batch.{Batch as TheBatch};
    ghost use Rattle.script_text.specs.State.{IsFilling};

    ghost Value = { TheBatch };

    ghost view = { λ f. record { table = f.table; cells = f.cells.items } };

    ghost invariant = { λ f. IsFilling (record { table = f.table; cells = f.cells.items }) f.tagged_len f.untagged };
}

impl Filling {
    /// No name and no cell. It takes no memory.
    pub fn new(alloc: Global) -> Filling
        ensures { result ≡ batch_of [] }
    {
        Filling {
            table: Octets::of(Vec::new(alloc)),
            cells: Vec::new(alloc),
            tagged_len: 0,
            untagged: true,
        }
    }

    /// Whether there is a name.
    pub fn is_named(&self) -> bool
        ensures { result ≡ not (length self.now.table == 0) }
    {
        self.table.len() != 0
    }

    /// Gives the batches to come this name.
    pub fn name(&mut self, table: Octets)
        requires none { self.old.cells ≡ [] }
        requires short { length table ≤ 255 }
        ensures { self.new ≡ record self.old { table = table } }
    {
        self.table = table;
    }

    /// Takes room for so many cells of a put.
    pub fn open(&mut self, alloc: Global, count: usize) -> Result<(), NoMemory>
        requires none { self.old.cells ≡ [] }
        ensures { self.new ≡ self.old }
    {
        self.cells = Vec::with_capacity(alloc, count)?;
        Ok(())
    }

    /// Whether with this cell there is neither a name nor tags.
    #[tactic(auto, using(crate::proofs::FillingLaws::plain_laws))]
    fn is_plain_with(&self, cell: &Cell) -> bool
        ensures { result ≡ is_plain (one_more self.now cell.now) }
    {
        !self.is_named() && self.untagged && cell.tags.is_empty()
    }

    /// The length in bytes of the body of the put's log entry with this cell after those so far.
    fn body_with(&self, cell: &Cell) -> usize
        ensures { result ≡ body_length (one_more self.now cell.now) }
    {
        let tagged_len = self.tagged_len + cell.tagged_len();
        if self.is_plain_with(cell) {
            24 + tagged_len - 2 * (self.cells.as_slice().len() + 1)
        } else {
            25 + self.table.len() + tagged_len
        }
    }

    /// Whether the cell has room in that body.
    #[tactic(auto, using(std::proofs::lemmas::Bool::Decides::nat_tests), unfolding(script_model::specs::Fields::room_fault))]
    pub fn room(&self, cell: &Cell) -> Result<(), LineError>
        ensures exact { Tells result (room_fault self.now cell.now) }
        ensures room { OnOk result (body_length (one_more self.now cell.now) ≤ 1048576) }
    {
        if self.body_with(cell) > 1_048_576 {
            return Err(LineError::Wrong(ScriptWhy::EntryLength));
        }
        Ok(())
    }

    /// Adds a cell that has room after those so far.
    pub fn push(&mut self, cell: Cell) -> Result<(), NoMemory>
        requires count { length self.old.cells < 1024 }
        requires room { body_length (one_more self.old cell) ≤ 1048576 }
        ensures ok { OnOk result (self.new ≡ one_more self.old cell) }
        ensures err { OnErr result (self.new ≡ self.old) }
    {
        let tagged_len = cell.tagged_len();
        let untagged = cell.tags.is_empty();
        self.cells.push(cell)?;
        self.tagged_len += tagged_len;
        self.untagged &= untagged;
        Ok(())
    }

    /// The batch of the name and the cells, which leaves the name and no cell. The name's bytes are copied here, for
    /// each batch has a name of its own: once for each put of the script, and never for a cell.
    pub fn take(&mut self, alloc: Global) -> Result<Batch, NoMemory>
        requires given { 1 ≤ length self.old.cells }
        ensures batch { IfOk result (λ batch. batch ≡ self.old) }
        ensures left { self.new ≡ record self.old { cells = [] } }
    {
        let cells = std::mem::replace(&mut self.cells, Vec::new(alloc));
        self.tagged_len = 0;
        self.untagged = true;
        make_batch(alloc, self.table.as_slice(), cells)
    }
}

/// The batch of a name and cells that are within its limits.
#[tactic(auto, using(std::proofs::lemmas::Bool::Decides::nat_tests, crate::proofs::FillingLaws::alone_below), unfolding(cell_model::specs::Batch::first_batch_limit))]
fn make_batch(alloc: Global, table: &[u8], cells: Vec<Cell>) -> Result<Batch, NoMemory>
    requires given { 1 ≤ length cells.items }
    requires count { length cells.items ≤ 1024 }
    requires short { length table.now ≤ 255 }
    requires body { body_length (record { table = table.now; cells = cells.items }) ≤ 1048576 }
    ensures { IfOk result (λ batch. batch ≡ record { table = table.now; cells = cells.items }) }
{
    let batch = Batch::new(cells).unwrap();
    if table.is_empty() {
        return Ok(batch);
    }
    match batch.of_table(alloc, table) {
        Ok(batch) => Ok(batch),
        Err(BatchError::Memory) => Err(NoMemory),
        Err(_) => unreachable!(),
    }
}
