//! The deletes of a family.

ghost use Rattle.std.specs.Prelude.{◌≡◌, ◌<◌, ◌||◌, ◌==◌, ℕ, nat_le, [], length, Some, None, IfOk};
ghost use Rattle.cell_model.specs.Merge.{IsRising};
ghost use Rattle.row_reader.specs.Marks.{reaches, marks, IsMarkedAt, IsMarkedUpTo};

use crate::family::is_family;
use kv_cell::{Kind, NoMemory};
use mem_segments::Row;
use std::alloc::Global;
use std::marker::Model;

/// Through which timestamp puts of a family are masked, and at which others, in rising order.
#[derive(Drop)]
pub(crate) struct Marks {
    through: Option<u64>,
    exact: Vec<u64>,
}

impl Model for Marks {
    ghost use Rattle.std.specs.List.Sorted.{IsNonDecreasing};
    ghost use Rattle.row_reader.specs.Marks.{Marked};

    ghost Value = { Marked };

    ghost view = { λ m. record { through = m.through; exact = m.exact.items } };

    ghost invariant = { λ m. IsNonDecreasing m.exact.items };
}

impl Marks {
    /// Of a family without deletes. It takes no memory.
    pub(crate) fn new(alloc: Global) -> Marks
        ensures { result ≡ record { through = None; exact = [] } }
    {
        Marks {
            through: None,
            exact: Vec::new(alloc),
        }
    }

    /// Whether a put of the family with this timestamp is masked.
    pub(crate) fn cover(&self, ts: u64) -> bool
        ensures { result ≡ marks self.now ts }
    {
        self.reach(ts) || self.exact.as_slice().binary_search(&ts).is_ok()
    }

    /// Whether the timestamp is at or below that of a delete family.
    fn reach(&self, ts: u64) -> bool
        ensures { result ≡ reaches self.now.through ts }
    {
        match self.through {
            Some(through) => ts <= through,
            None => false,
        }
    }
}

/// The deletes of the family of the cell at this place, where `before` are those of the cell before it.
pub(crate) fn marks_at(
    alloc: Global,
    cells: &[Row],
    place: usize,
    before: Marks,
) -> Result<Marks, NoMemory>
    requires order { IsRising cells.now }
    requires within { place < length cells.now }
    requires before { IsMarkedUpTo cells.now place before }
    ensures { IfOk result (λ marks. IsMarkedAt cells.now place marks) }
{
    if place == 0 {
        return family_of_first(alloc, cells);
    }
    if is_family(cells[place - 1].cell(), cells[place].cell()) {
        return Ok(before);
    }
    family_of_first(alloc, &cells[place..])
}

/// The deletes of the first cell's family.
fn family_of_first(alloc: Global, cells: &[Row]) -> Result<Marks, NoMemory>
    requires order { IsRising cells.now }
    ensures { IfOk result (λ marks. IsMarkedAt cells.now 0 marks) }
{
    let (through, mut exact) = gather(alloc, cells)?;
    exact.sort_unstable();
    Ok(Marks { through, exact })
}

/// The deletes of the first cell's family, which stand in a row at the front.
fn gather(alloc: Global, cells: &[Row]) -> Result<(Option<u64>, Vec<u64>), NoMemory>
    requires order { IsRising cells.now }
    ensures { IfOk result (λ found. IsMarkedAt cells.now 0 (record { through = found.0; exact = found.1.items })) }
{
    let mut through = None;
    let mut exact = Vec::new(alloc);
    for place in 0..cells.len() {
        let cell = cells[place].cell();
        if !is_family(cell, cells[0].cell()) {
            return Ok((through, exact));
        }
        match cell.kind {
            Kind::DeleteFamily => through = Some(later(through, cell.ts)),
            Kind::DeleteFamilyVersion => exact.push(cell.ts)?,
            Kind::Put | Kind::Delete | Kind::DeleteColumn => {}
        }
    }
    Ok((through, exact))
}

/// The later one of two timestamps.
fn later(through: Option<u64>, ts: u64) -> u64
    ensures { (p : ℕ) → reaches (Some result) p ≡ (reaches through p || nat_le p ts) }
{
    match through {
        Some(through) if through > ts => through,
        _ => ts,
    }
}
