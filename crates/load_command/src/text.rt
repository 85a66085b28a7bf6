//! What a load prints.

ghost use Rattle.std.specs.Prelude.{◌≡◌, ◌++◌, IfOk, OnOk};
ghost use Rattle.load_model.specs.Text.{counts_text, cells_line, load_text, ended_text};

use kv_cell::NoMemory;
use made_script::CallCounts;
use report_text::{append, append_end, append_number};
use std::alloc::Global;

/// The output of a load whose store was recovered to so many cells.
pub fn whole_text(alloc: Global, counts: CallCounts, cells: u64) -> Result<Vec<u8>, NoMemory>
    ensures { IfOk result (λ text. text.items ≡ load_text counts cells) }
{
    let mut out = Vec::new(alloc);
    append_counts(&mut out, counts)?;
    append_cells(&mut out, cells)?;
    append_end(&mut out, 0)?;
    Ok(out)
}

/// The output of a load that ended with this exit status, and whose store wasn't recovered.
pub fn ended_text(alloc: Global, counts: CallCounts, status: u8) -> Result<Vec<u8>, NoMemory>
    ensures { IfOk result (λ text. text.items ≡ ended_text counts status) }
{
    let mut out = Vec::new(alloc);
    append_counts(&mut out, counts)?;
    append_end(&mut out, u32::from(status))?;
    Ok(out)
}

/// Appends how many calls there were, and how many bytes their values have.
#[tactic(auto, unfolding(load_model::specs::Text::counts_text))]
fn append_counts(out: &mut Vec<u8>, counts: CallCounts) -> Result<(), NoMemory>
    ensures { OnOk result (out.new.items ≡ out.old.items ++ counts_text counts) }
{
    append_number(out, b"load puts ", counts.puts)?;
    append_number(out, b" scans ", counts.scans)?;
    append_number(out, b" flushes ", counts.flushes)?;
    append_number(out, b" rolls ", counts.rolls)?;
    append_number(out, b"\nvalue bytes ", counts.value_bytes)?;
    append(out, b"\n")
}

/// Appends how many cells there are.
#[tactic(auto, unfolding(load_model::specs::Text::cells_line))]
fn append_cells(out: &mut Vec<u8>, cells: u64) -> Result<(), NoMemory>
    ensures { OnOk result (out.new.items ≡ out.old.items ++ cells_line cells) }
{
    append_number(out, b"recovered ", cells)?;
    append(out, b"\n")
}
