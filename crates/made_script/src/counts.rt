//! How many calls of each kind a script has.

ghost use Rattle.std.specs.Prelude.{◌≡◌, ℕ, ◌≤◌, ◌+◌, ◌<◌, ◌^◌, [], ◌∷◌, length, sum_by};
ghost use Rattle.script_calls.specs.Calls.{call_of};
ghost use Rattle.script_model.specs.Calls.{IsScript};
ghost use Rattle.made_script.specs.Counts.{counts_in, counts_of, value_length, plus, AreUpTo};

use kv_cell::Batch;
use script_calls::{Call, CallList, Script};

/// How many calls of each kind there are.
#[derive(Clone, Copy, Debug, PartialEq, Eq)]
pub struct CallCounts {
    pub puts: u64,
    /// Of scans and gets.
    pub scans: u64,
    pub flushes: u64,
    pub rolls: u64,
    /// How many bytes the values of all cells put have together.
    pub value_bytes: u64,
}

/// The counts of a script's calls.
pub fn count_calls(script: &Script) -> CallCounts
    requires { IsScript script.now }
    ensures { result ≡ counts_of script.now }
{
    let mut counts = CallCounts {
        puts: 0,
        scans: 0,
        flushes: 0,
        rolls: 0,
        value_bytes: 0,
    };
    for list in script.handlers.as_slice() {
        count_list(&mut counts, list);
    }
    counts
}

/// Adds the calls of one handler.
fn count_list(counts: &mut CallCounts, list: &CallList)
    requires room { AreUpTo (2 ^ 50) counts.old }
    requires few { length list.now ≤ 16777216 }
    ensures counted { counts.new ≡ plus counts.old (counts_in list.now) }
    ensures most { (n : ℕ) → AreUpTo n counts.old → AreUpTo (n + 2 ^ 44) counts.new }
{
    for call in list.as_slice() {
        count_call(counts, call);
    }
}

/// Adds one call.
fn count_call(counts: &mut CallCounts, call: &Call)
    requires { AreUpTo (2 ^ 51) counts.old }
    ensures counted { counts.new ≡ plus counts.old (counts_in (call_of call.now ∷ [])) }
    ensures most { (n : ℕ) → AreUpTo n counts.old → AreUpTo (n + 1048576) counts.new }
{
    match call {
        Call::Put { batch, .. } => {
            counts.puts += 1;
            counts.value_bytes += values_length(batch);
        }
        Call::Scan { .. } | Call::Get { .. } => counts.scans += 1,
        Call::Flush { .. } => counts.flushes += 1,
        Call::Roll => counts.rolls += 1,
    }
}

/// How many bytes the values of these cells have together.
fn values_length(batch: &Batch) -> u64
    ensures is { result ≡ sum_by value_length batch.now.cells }
    ensures most { result ≤ 1048576 }
{
    let mut total = 0;
    for cell in batch.as_slice() {
        total += cell.value.len() as u64;
    }
    total
}
