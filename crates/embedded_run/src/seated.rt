//! Handlers with their passes.

ghost use Rattle.std.specs.Prelude.{◌≡◌, ◌≤◌, [], vec_capacity, IfOk};

use kv_cell::NoMemory;
use std::alloc::Global;

/// A handler, and the pass that its session is opened with. The pass is away only while the handler works.
#[derive(Drop)]
pub struct Seated<P, H> {
    pub pass: Option<P>,
    pub handler: H,
}

/// Room for so many handlers with their passes, and for as many that are back.
pub(crate) fn make_room<P: Drop, H: Drop>(
    alloc: Global,
    handlers: usize,
) -> Result<(Vec<Seated<P, H>>, Vec<H>), NoMemory>
    ensures seated { IfOk result (λ room. (room.0.items ≡ []) × (handlers ≤ vec_capacity room.0)) }
    ensures back { IfOk result (λ room. (room.1.items ≡ []) × (handlers ≤ vec_capacity room.1)) }
{
    let seated = Vec::with_capacity(alloc, handlers)?;
    let back = Vec::with_capacity(alloc, handlers)?;
    Ok((seated, back))
}
