//! Gets: a scan of one row, of which a reader sees what no delete masks.

ghost use Rattle.std.specs.Prelude.{◌≡◌, ◌≤◌, [], ◌∷◌, ◌++◌, IfOk, true};
ghost use Rattle.region_model.specs.Calls.{Newest};
ghost use Rattle.script_calls.specs.Answers.{answer_of, is_got};
ghost use Rattle.server_model.specs.Steps.{Scans};
ghost use Rattle.handler_threads.specs.region_calls.Passes.{knows, IsPassOf};

use crate::answering::of_get;
use disk_images::Disk;
use handler_threads::ServerName;
use handler_threads::region_calls::{Pass, Server};
use kv_cell::{NoMemory, Octets};
use script_calls::Answer;
use std::alloc::Global;
use std::sync::Wait;

/// The row after which the rows above this one begin: the row with a byte 0 after it.
pub fn row_behind(alloc: Global, row: &[u8]) -> Result<Vec<u8>, NoMemory>
    ensures { IfOk result (λ behind. behind.items ≡ row.now ++ 0 ∷ []) }
{
    let mut behind = Vec::new(alloc);
    behind.reserve(row.len() + 1)?;
    behind.extend_from_slice(row)?;
    behind.push(0)?;
    Ok(behind)
}

/// Gets a row of a region at a point that was shown: the puts that no delete masks and no later put hides, of each column
/// the newest so many. It waits for nobody. The point is at or above each one that the pass has seen.
pub fn get_row<R: Wait, D: Disk, N: ServerName>(
    alloc: Global,
    server: &Server<'_, D, N, R>,
    pass: &mut Pass<N>,
    region: u32,
    row: &Octets,
    versions: u32,
) -> Answer
    requires of { IsPassOf server.now pass.old }
    requires region { (1 ≤ region) × (region ≤ N.name.regions) }
    ensures gets { Scans N.name (Newest versions) region row.now (row.now ++ 0 ∷ []) (answer_of result) (knows pass.old) (knows pass.new) }
    ensures got { is_got result ≡ true }
    ensures of { IsPassOf server.now pass.new }
{
    let row = row.as_slice();
    let Ok(behind) = row_behind(alloc, row) else {
        return Answer::GetMemory;
    };
    let scanned = server.scan(alloc, pass, region, row, behind.as_slice());
    of_get(alloc, versions, scanned)
}
