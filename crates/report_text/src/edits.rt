//! The lines of a region and of its edits.

ghost use Rattle.std.specs.Prelude.{◌≡◌, ◌++◌, OnOk, codes};
ghost use Rattle.std.specs.List.{flat_map, AllByRecursion};
ghost use Rattle.script_model.specs.Report.{edit_text, outcome_name, region_text};
ghost use Rattle.report_text.specs.Reading.{IsEditLine, IsRegionLine};

use crate::words::{append, append_number, append_numbers};
use kv_cell::NoMemory;
use script_calls::{EditLine, RegionLine};

/// The end of an edit's line.
fn outcome(done: bool) -> &'static [u8]
    ensures { result.now ≡ codes " " ++ (outcome_name done ++ codes "\n") }
{
    if done { b" done\n" } else { b" failed\n" }
}

#[tactic(auto, unfolding(script_model::specs::Report::edit_text))]
fn append_edit(out: &mut Vec<u8>, edit: &EditLine) -> Result<(), NoMemory>
    ensures ok { OnOk result (out.new.items ≡ out.old.items ++ edit_text edit.now) }
    ensures reads { OnOk result (IsEditLine edit.now) }
{
    append_number(out, b"edit ", edit.number)?;
    append_numbers(out, b" ", edit.handler as u64, edit.call as u64)?;
    append(out, outcome(edit.done))
}

fn append_edits(out: &mut Vec<u8>, edits: &[EditLine]) -> Result<(), NoMemory>
    ensures ok { OnOk result (out.new.items ≡ out.old.items ++ flat_map edit_text edits.now) }
    ensures reads { OnOk result (AllByRecursion IsEditLine edits.now) }
{
    for edit in edits {
        append_edit(out, edit)?;
    }
    Ok(())
}

/// Appends a region's line and the lines of its edits.
#[tactic(auto, unfolding(script_model::specs::Report::region_text))]
pub(crate) fn append_journal(out: &mut Vec<u8>, region: &RegionLine) -> Result<(), NoMemory>
    ensures ok { OnOk result (out.new.items ≡ out.old.items ++ region_text region.now) }
    ensures reads { OnOk result (IsRegionLine region.now) }
{
    append_number(out, b"region ", region.region as u64)?;
    append_numbers(out, b" base ", region.last, region.count)?;
    append(out, b"\n")?;
    append_edits(out, region.edits.as_slice())?;
    Ok(())
}
