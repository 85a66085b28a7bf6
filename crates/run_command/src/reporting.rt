//! The report of a run that is closed.
ghost use Rattle.std.specs.Prelude.{◌≡◌, map, IfOk, ◌++◌};
ghost use Rattle.run_command.specs.Reported.{region_line, line_edit};

use kv_cell::NoMemory;
use region_state::{Line, LineOutcome};
use script_calls::{EditLine, EditLines, RegionLine, RegionLines};
use script_run::region_calls::ClosedRegion;
use std::alloc::Global;

/// The lines of the regions.
pub fn region_lines(alloc: Global, regions: Vec<ClosedRegion>) -> Result<RegionLines, NoMemory>
    ensures { IfOk result (λ lines. lines ≡ map region_line regions.items) }
{
    let mut lines = Vec::with_capacity(alloc, regions.len())?;
    for region in regions {
        lines.push(line_of(alloc, region)?)?;
    }
    Ok(RegionLines::of(lines))
}

fn line_of(alloc: Global, region: ClosedRegion) -> Result<RegionLine, NoMemory>
    ensures { IfOk result (λ line. line ≡ region_line region) }
{
    let edits = edit_lines(alloc, region.lines.as_slice())?;
    Ok(RegionLine {
        region: region.region,
        last: region.base.last,
        count: region.base.cells.len() as u64,
        edits,
    })
}

fn edit_lines(alloc: Global, lines: &[Line]) -> Result<EditLines, NoMemory>
    ensures { IfOk result (λ edits. edits ≡ map line_edit lines.now) }
{
    let mut edits = Vec::with_capacity(alloc, lines.len())?;
    for line in lines {
        edits.push(edit_of(line))?;
    }
    Ok(EditLines::of(edits))
}

fn edit_of(line: &Line) -> EditLine
    ensures { result ≡ line_edit line.now }
{
    let caller = line.caller();
    EditLine {
        number: line.number(),
        handler: caller.handler,
        call: caller.call,
        done: matches!(line.outcome(), LineOutcome::Done),
    }
}
