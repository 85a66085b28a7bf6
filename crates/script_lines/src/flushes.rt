//! Lines of calls that flush.

ghost use Rattle.std.specs.Prelude.{◌≡◌, [], ◌∷◌, IfOk, Some};
ghost use Rattle.script_model.specs.Tables.{call_fault, spoken_of};
ghost use Rattle.script_lines.specs.Spoken.{InRange, spoken};
ghost use Rattle.script_lines.specs.Why.{Tells};

use crate::calls::{Spoken, handler_of, region_of};
use crate::faults::{CellField, LineError, ScriptWhy};
use crate::fields::sized;
use crate::not_here::here;
use script_calls::Call;
use script_model::Command;
use std::alloc::Global;

/// A flush of all families of a region.
pub(crate) fn flush_line(
    command: Command,
    handlers: u64,
    regions: u32,
    name: &[u8],
    h: &[u8],
    r: &[u8],
) -> Result<Spoken, LineError>
    ensures exact { Tells result (call_fault command handlers regions (name.now ∷ h.now ∷ r.now ∷ [])) }
    ensures value { IfOk result (λ s. spoken_of (name.now ∷ h.now ∷ r.now ∷ []) ≡ Some (spoken s)) }
    ensures within { IfOk result (λ s. InRange handlers regions s) }
{
    if name != b"flush".as_slice() {
        return Err(LineError::Wrong(ScriptWhy::Word));
    }
    let handler = handler_of(h, handlers)?;
    let region = region_of(r, regions)?;
    here(command)?;
    Ok(Spoken::Calls {
        handler,
        call: Call::Flush {
            region,
            family: None,
        },
    })
}

/// A flush of one family, of 1 to 127 bytes, of a region.
pub(crate) fn family_line(
    alloc: Global,
    command: Command,
    handlers: u64,
    regions: u32,
    name: &[u8],
    h: &[u8],
    r: &[u8],
    family: &[u8],
) -> Result<Spoken, LineError>
    ensures exact { Tells result (call_fault command handlers regions (name.now ∷ h.now ∷ r.now ∷ family.now ∷ [])) }
    ensures value { IfOk result (λ s. spoken_of (name.now ∷ h.now ∷ r.now ∷ family.now ∷ []) ≡ Some (spoken s)) }
    ensures within { IfOk result (λ s. InRange handlers regions s) }
{
    if name != b"flush".as_slice() {
        return Err(LineError::Wrong(ScriptWhy::Word));
    }
    let handler = handler_of(h, handlers)?;
    let region = region_of(r, regions)?;
    let family = sized(alloc, family, 1, 127, CellField::Family)?;
    here(command)?;
    Ok(Spoken::Calls {
        handler,
        call: Call::Flush {
            region,
            family: Some(family),
        },
    })
}
