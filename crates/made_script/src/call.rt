//! One call of a load.

ghost use Rattle.std.specs.Prelude.{◌≡◌, ◌≤◌, IfOk};
ghost use Rattle.region_model.specs.Calls as model;
ghost use Rattle.script_calls.specs.Calls.{call_of};
ghost use Rattle.made_script.specs.Made.{made_call, region_for, from_row, to_row};

use crate::cell::make_batch;
use kv_cell::{Durability, NoMemory, Octets};
use script_calls::Call;
use std::alloc::Global;
use std::vec;

/// The call with this number of a handler, made from `x`. Calls and handlers are counted from 1.
#[tactic(auto, unfolding(crate::specs::Made::made_call))]
pub fn make_call(
    alloc: Global,
    regions: u32,
    handler: u32,
    call: u32,
    x: u64,
) -> Result<Call, NoMemory>
    requires { 1 ≤ regions }
    ensures { IfOk result (λ made. call_of made ≡ made_call regions handler call x) }
{
    let region = region_of(regions, x);
    if call % 8 == 0 {
        return make_scan(alloc, region, x);
    }
    if call % 64 == 31 {
        return Ok(Call::Flush {
            region,
            family: None,
        });
    }
    if handler == 1 && call % 256 == 129 {
        return Ok(Call::Roll);
    }
    let batch = make_batch(alloc, call, x)?;
    Ok(Call::Put {
        region,
        durability: Durability::Sync,
        batch,
    })
}

fn region_of(regions: u32, x: u64) -> u32
    requires { 1 ≤ regions }
    ensures { result ≡ region_for regions x }
{
    1 + ((x >> 33) % u64::from(regions)) as u32
}

/// A scan of the rows that begin with the highest byte of `x`.
fn make_scan(alloc: Global, region: u32, x: u64) -> Result<Call, NoMemory>
    ensures { IfOk result (λ made. call_of made ≡ model.Scan model.Raw region (from_row x) (to_row x)) }
{
    let first = (x >> 56) as u8;
    let from = Octets::of(vec![in alloc; first]?);
    let to = if first == 255 {
        Octets::of(Vec::new(alloc))
    } else {
        Octets::of(vec![in alloc; first + 1]?)
    };
    Ok(Call::Scan { region, from, to })
}
