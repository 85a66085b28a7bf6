//! What `recover` prints of the regions.

ghost use Rattle.std.specs.Prelude.{◌≡◌, ◌++◌, IfOk, OnOk};
ghost use Rattle.std.specs.List.{flat_map};
ghost use Rattle.script_model.specs.Outputs.{recovered_line, recover_text};
ghost use Rattle.recover_command.specs.Lines.{line_of, lines_from};

use kv_cell::NoMemory;
use region_replay::Replayed;
use report_text::{append, append_end, append_number, append_numbers};
use std::alloc::Global;

/// A line for each region that has a sequence id, from region 1 on, and the last line.
pub fn text_of(alloc: Global, regions: &[Replayed]) -> Result<Vec<u8>, NoMemory>
    ensures { IfOk result (λ text. text.items ≡ recover_text (lines_from 1 regions.now)) }
{
    let mut out = Vec::new(alloc);
    append_regions(&mut out, regions)?;
    append_end(&mut out, 0)?;
    Ok(out)
}

fn append_regions(out: &mut Vec<u8>, regions: &[Replayed]) -> Result<(), NoMemory>
    ensures { OnOk result (out.new.items ≡ out.old.items ++ flat_map recovered_line (lines_from 1 regions.now)) }
{
    for (before, region) in regions.iter().enumerate() {
        append_region(out, before as u64 + 1, region)?;
    }
    Ok(())
}

/// Appends the line of a region, nothing where no sequence id was seen of it.
#[tactic(auto, unfolding(script_model::specs::Outputs::recovered_line))]
fn append_region(out: &mut Vec<u8>, number: u64, region: &Replayed) -> Result<(), NoMemory>
    ensures { OnOk result (out.new.items ≡ out.old.items ++ recovered_line (line_of number region.now)) }
{
    if region.base.last == 0 {
        return Ok(());
    }
    append_numbers(out, b"recovered ", number, region.base.last)?;
    append_number(out, b" ", region.base.cells.len() as u64)?;
    append(out, b"\n")
}
