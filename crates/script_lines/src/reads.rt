//! Lines of calls that read.

ghost use Rattle.std.specs.Prelude.{◌≡◌, IfOk};
ghost use Rattle.region_model.specs.Calls.{Scan, Raw, get_call};
ghost use Rattle.script_model.specs.Fields.{bytes_of};
ghost use Rattle.script_model.specs.Tables.{Calls, get_fault, scan_fault};
ghost use Rattle.script_model.specs.Text.{number_of};
ghost use Rattle.script_lines.specs.Spoken.{InRange, spoken};
ghost use Rattle.script_lines.specs.Why.{Tells};

use crate::calls::{Spoken, handler_of, region_of};
use crate::faults::{CellField, LineError, ScriptWhy};
use crate::fields::{any_token, ranged, sized};
use crate::not_here::{get_here, here};
use script_calls::Call;
use script_model::Command;
use std::alloc::Global;

/// A scan of the rows between two tokens.
pub(crate) fn scan_line(
    alloc: Global,
    command: Command,
    handlers: u64,
    regions: u32,
    h: &[u8],
    r: &[u8],
    from: &[u8],
    to: &[u8],
) -> Result<Spoken, LineError>
    ensures exact { Tells result (scan_fault command handlers regions h.now r.now from.now to.now) }
    ensures value { IfOk result (λ s. spoken s ≡ Calls (number_of h.now) (Scan Raw (number_of r.now) (bytes_of from.now) (bytes_of to.now))) }
    ensures within { IfOk result (λ s. InRange handlers regions s) }
{
    let handler = handler_of(h, handlers)?;
    let region = region_of(r, regions)?;
    let from = any_token(alloc, from)?;
    let to = any_token(alloc, to)?;
    here(command)?;
    Ok(Spoken::Calls {
        handler,
        call: Call::Scan { region, from, to },
    })
}

/// A get of a row of 1 to 32,767 bytes, of 1 to 1,000,000 versions of each column.
pub(crate) fn get_line(
    alloc: Global,
    command: Command,
    handlers: u64,
    regions: u32,
    h: &[u8],
    r: &[u8],
    row: &[u8],
    versions: &[u8],
) -> Result<Spoken, LineError>
    ensures exact { Tells result (get_fault command handlers regions h.now r.now row.now versions.now) }
    ensures value { IfOk result (λ s. spoken s ≡ Calls (number_of h.now) (get_call (number_of r.now) (bytes_of row.now) (number_of versions.now))) }
    ensures within { IfOk result (λ s. InRange handlers regions s) }
{
    let handler = handler_of(h, handlers)?;
    let region = region_of(r, regions)?;
    let row = sized(alloc, row, 1, 32_767, CellField::Row)?;
    let versions = ranged(versions, 1, 1_000_000, ScriptWhy::Count)?;
    get_here(command)?;
    Ok(Spoken::Calls {
        handler,
        call: Call::Get {
            region,
            row,
            versions: versions as u32,
        },
    })
}
