//! The replies of all handlers in one list.
ghost use Rattle.std.specs.Prelude.{◌≡◌, ◌++◌, OnOk, IfOk};
ghost use Rattle.std.specs.List.{flat_map};

use kv_cell::NoMemory;
use script_calls::{ReplyLine, ReplyLines};
use std::alloc::Global;

/// The replies of the handlers, one handler's after the other's.
pub fn join_replies(alloc: Global, parts: Vec<ReplyLines>) -> Result<Vec<ReplyLine>, NoMemory>
    ensures { IfOk result (λ all. all.items ≡ flat_map (λ part. part) parts.items) }
{
    let mut all = Vec::new(alloc);
    for part in parts {
        append_part(&mut all, part)?;
    }
    Ok(all)
}

fn append_part(all: &mut Vec<ReplyLine>, part: ReplyLines) -> Result<(), NoMemory>
    ensures { OnOk result (all.new.items ≡ all.old.items ++ part) }
{
    let mut lines = part.into_vec();
    all.append(&mut lines)?;
    Ok(())
}
