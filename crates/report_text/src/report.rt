//! The report of a run.

ghost use Rattle.std.specs.Prelude.{◌≡◌, ◌++◌, IfOk, OnOk};
ghost use Rattle.std.specs.List.{flat_map, AllByRecursion};
ghost use Rattle.script_model.specs.Report.{report_text, region_text};
ghost use Rattle.report_text.specs.Reading.{IsRegionLine, IsReport};

use crate::edits::append_journal;
use crate::replies::append_replies;
use crate::words::append;
use kv_cell::{NoMemory, Octets};
use script_calls::{RegionLine, Report};
use std::alloc::Global;

fn append_regions(out: &mut Vec<u8>, regions: &[RegionLine]) -> Result<(), NoMemory>
    ensures ok { OnOk result (out.new.items ≡ out.old.items ++ flat_map region_text regions.now) }
    ensures reads { OnOk result (AllByRecursion IsRegionLine regions.now) }
{
    for region in regions {
        append_journal(out, region)?;
    }
    Ok(())
}

/// The text of a report, which has no other reading.
#[tactic(auto, using(crate::proofs::LineLaws::report_parts))]
pub fn write_report(alloc: Global, report: &Report) -> Result<Octets, NoMemory>
    ensures text { IfOk result (λ text. text ≡ report_text report.now) }
    ensures reads { IfOk result (λ text. IsReport report.now) }
{
    let mut out = Vec::new(alloc);
    append(&mut out, b"hwal 1\n")?;
    append_regions(&mut out, report.regions.as_slice())?;
    append_replies(&mut out, report.replies.as_slice(), report.status)?;
    Ok(Octets::of(out))
}
