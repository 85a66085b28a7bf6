//! How what is shown of a region catches up with its journal.

ghost use Rattle.std.specs.Prelude.{◌≡◌, ◌+◌, ◌<◌, ◌≤◌, ◌^◌, length, take, IsTrue};
ghost use Rattle.std.specs.Arc.{arc_value};
ghost use Rattle.std.specs.List.{AllPass};
ghost use mathlib.Core.List.{IsPrefix};
ghost use Rattle.region_model.specs.Lines.{is_completed_line};
ghost use Rattle.region_lock.specs.Histories.{HasShown};

use kv_cell::NoMemory;
use region_state::{Line, Version};
use region_versions::{History, Shower, VersionsNaming};
use std::alloc::Global;
use std::sync::{Arc, Wait};

/// The lines up to a point that the history doesn't have yet join it. False where another one added to it, which no run shows.
fn catch_up<N: VersionsNaming>(history: &mut History<N>, lines: &[Line], count: u64) -> bool
    requires front { IsPrefix history.old.lines lines.now }
    requires count { (count ≤ length lines.now) × (length history.old.lines ≤ count) }
    requires room { count < 2 ^ 62 }
    ensures region { history.new.region ≡ history.old.region }
    ensures later { IsPrefix history.old.lines history.new.lines }
    ensures front { IsPrefix history.new.lines lines.now }
    ensures within { length history.new.lines ≤ count }
    ensures whole { IsTrue result → length history.new.lines ≡ count }
{
    'joining: while history.len() < count {
        let line = &lines[history.len() as usize];
        if !history.push(line) {
            return false;
        }
    }
    true
}

/// The history catches up with a version of these lines, and it is shown.
pub(crate) fn show_in<N: VersionsNaming, R: Wait + Drop>(
    shower: &mut Shower<N, R>,
    history: &mut History<N>,
    lines: &[Line],
    first: u64,
    version: Arc<Version, Global>,
) -> Result<(), NoMemory>
    requires shown { HasShown history.old.region lines.now history.old shower.old.shown }
    requires base { (arc_value version).base ≡ N.region_base history.old.region }
    requires cut { (arc_value version).cut ≡ take (length (arc_value version).cut) lines.now }
    requires within { length (arc_value version).cut ≤ length lines.now }
    requires completed { AllPass is_completed_line (arc_value version).cut }
    requires point { (arc_value version).point ≡ first + length (arc_value version).cut }
    requires room { (arc_value version).point < 2 ^ 48 }
    ensures region { history.new.region ≡ history.old.region }
    ensures shown { HasShown history.old.region lines.now history.new shower.new.shown }
{
    let count = version.point() - first;
    if count < history.len() || !catch_up(history, lines, count) {
        return Err(NoMemory);
    }
    shower.show(version, history.front())
}
