//! One name, store or entry goes to its region.

ghost use Rattle.std.specs.Prelude.{◌≡◌, ◌≤◌, ◌<◌, ◌+◌, ◌^◌, ◌++◌, OnOk, vec_len};
ghost use Rattle.log_model.specs.Entry.{IsEntry};
ghost use Rattle.region_replay.specs.Dealt.{IsGood, Deals, DealsName, AddsEdits, RaisesNext, AddsStored, AddsEntry};

use crate::found::RegionFiles;
use disk_images::{Name, NameKind};
use entry_frame::Entry;
use found_files::FoundStore;
use kv_cell::{NoMemory, NumberedCells};

/// A store file's number raises the next one of its region, and the name of an edits file goes to those of its region.
pub(crate) fn deal_name(regions: &mut Vec<RegionFiles>, name: Name) -> Result<(), NoMemory>
    requires regions { vec_len regions.old ≡ 64 }
    requires good { IsGood name }
    ensures dealt { OnOk result (DealsName name regions.old.items regions.new.items) }
{
    match name.kind {
        NameKind::Store => {
            raise_at(regions, name.region, name.number);
            Ok(())
        }
        NameKind::Edits => add_edits_at(regions, name),
        NameKind::Log | NameKind::Old => Ok(()),
    }
}

fn raise_at(regions: &mut Vec<RegionFiles>, region: u32, number: u64)
    requires regions { vec_len regions.old ≡ 64 }
    requires region { (1 ≤ region) × (region ≤ 64) }
    requires number { number ≤ 2 ^ 62 }
    ensures { Deals region (RaisesNext number) regions.old.items regions.new.items }
{
    raise_next(&mut regions[region as usize - 1], number);
}

fn raise_next(region: &mut RegionFiles, number: u64)
    requires { number ≤ 2 ^ 62 }
    ensures { RaisesNext number region.old region.new }
{
    region.next_store = region.next_store.max(number + 1);
}

fn add_edits_at(regions: &mut Vec<RegionFiles>, name: Name) -> Result<(), NoMemory>
    requires regions { vec_len regions.old ≡ 64 }
    requires region { (1 ≤ name.region) × (name.region ≤ 64) }
    ensures { OnOk result (Deals name.region (AddsEdits name) regions.old.items regions.new.items) }
{
    add_edits(&mut regions[name.region as usize - 1], name)
}

fn add_edits(region: &mut RegionFiles, name: Name) -> Result<(), NoMemory>
    ensures { OnOk result (AddsEdits name region.old region.new) }
{
    region.edits.push(name)?;
    Ok(())
}

/// The cells of a store go after those of its region. No byte is copied.
pub(crate) fn deal_store(regions: &mut Vec<RegionFiles>, store: FoundStore) -> Result<(), NoMemory>
    requires regions { vec_len regions.old ≡ 64 }
    requires region { (1 ≤ store.name.region) × (store.name.region ≤ 64) }
    ensures { OnOk result (Deals store.name.region (AddsStored store.text.cells) regions.old.items regions.new.items) }
{
    let FoundStore { name, text } = store;
    add_stored(&mut regions[name.region as usize - 1], text.cells)
}

fn add_stored(region: &mut RegionFiles, cells: NumberedCells) -> Result<(), NoMemory>
    ensures { OnOk result (AddsStored cells region.old region.new) }
{
    append_cells(&mut region.stored, cells)
}

/// Puts these cells after the others. No byte is copied.
pub(crate) fn append_cells(cells: &mut NumberedCells, more: NumberedCells) -> Result<(), NoMemory>
    ensures { OnOk result (cells.new ≡ cells.old ++ more) }
{
    if cells.is_empty() {
        *cells = more;
        return Ok(());
    }
    push_cells(cells, more)
}

/// Adds these cells. No byte is copied.
fn push_cells(cells: &mut NumberedCells, more: NumberedCells) -> Result<(), NoMemory>
    ensures { OnOk result (cells.new ≡ cells.old ++ more) }
{
    for pair in more.into_vec() {
        cells.push(pair.0, pair.1)?;
    }
    Ok(())
}

/// An entry goes to the unflushed ones of its region.
pub(crate) fn deal_entry(regions: &mut Vec<RegionFiles>, entry: Entry) -> Result<(), NoMemory>
    requires { vec_len regions.old ≡ 64 }
    ensures in_range { (1 ≤ entry.region) × (entry.region ≤ 64) }
    ensures valid { IsEntry entry }
    ensures dealt { OnOk result (Deals entry.region (AddsEntry entry) regions.old.items regions.new.items) }
{
    add_entry(&mut regions[entry.region as usize - 1], entry)
}

fn add_entry(region: &mut RegionFiles, entry: Entry) -> Result<(), NoMemory>
    ensures valid { IsEntry entry }
    ensures added { OnOk result (AddsEntry entry region.old region.new) }
{
    region.unflushed.push(entry)?;
    Ok(())
}
