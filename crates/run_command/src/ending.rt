//! How a run ends.
ghost use Rattle.std.specs.Prelude.{◌≡◌, ◌≤◌, IsTrue, IfOk};
ghost use Rattle.script_model.specs.Report.{report_text};
ghost use Rattle.report_text.specs.Reading.{IsReport};
ghost use Rattle.disk_images.specs.Calls.{Rose};
ghost use Rattle.command_base.specs.Status.{exit_status};
ghost use Rattle.run_command.specs.Ends.{joined, report_in, IsPrinted, IsReportEnd};

use crate::deciding::decide;
use crate::joining::join_replies;
use crate::reporting::region_lines;
use command_base::{Status, emit, refuse};
use disk_images::Sink;
use kv_cell::{NoMemory, Octets};
use report_text::write_report;
use run_model::Spent;
use script_calls::{ReplyLine, ReplyLines, Report};
use script_run::region_calls::ClosedRegion;
use std::alloc::Global;

/// Prints the report of regions and replies. Where no memory is found for it, one line that refuses.
pub fn print_report<K: Sink>(
    alloc: Global,
    regions: Vec<ClosedRegion>,
    replies: Vec<ReplyLines>,
    spent: Option<Spent>,
    broken: bool,
    out: &mut K,
) -> Status
    ensures printed { IsTrue K.told
        → IsPrinted (Rose (K.faults out.old) (K.faults out.new)) result (K.taken out.old) (K.taken out.new) regions.items (joined replies.items) spent broken }
    ensures status { IsReportEnd result }
    ensures broken { result ≡ Status.DiskFault → IsTrue broken }
    ensures cause { result ≡ Status.SinkFault → Rose (K.faults out.old) (K.faults out.new) }
    ensures later { K.faults out.old ≤ K.faults out.new }
{
    let Ok(lines) = join_replies(alloc, replies) else {
        return refuse(out, Status::Memory);
    };
    let status = decide(broken, spent, lines.as_slice());
    match make_report(alloc, regions, lines, status) {
        Ok(text) => emit(out, text.as_slice(), status),
        Err(NoMemory) => refuse(out, Status::Memory),
    }
}

/// The text of the report.
fn make_report(
    alloc: Global,
    regions: Vec<ClosedRegion>,
    lines: Vec<ReplyLine>,
    status: Status,
) -> Result<Octets, NoMemory>
    ensures text { IfOk result (λ text. text ≡ report_text (report_in regions.items lines.items (exit_status status))) }
    ensures reads { IfOk result (λ text. IsReport (report_in regions.items lines.items (exit_status status))) }
{
    let regions = region_lines(alloc, regions)?;
    write_report(
        alloc,
        &Report {
            regions,
            replies: ReplyLines::of(lines),
            status: u32::from(status.number()),
        },
    )
}
