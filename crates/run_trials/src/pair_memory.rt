//! A run on two disks to which memory may be refused, over disks and streams that take none once they are made. With ample memory it is a plain
//! test; `tools/refusals` runs the built test once for each allocation, and has that one refused.

use crate::bench::expect;
use disk_fakes::{SafeDisk, SafeSink, SafeSource};
use groups_command::group_servers::GroupList;
use groups_command::{GroupsOutcome, GroupsStatus, run_groups};
use load_run::FreeGate;
use std::alloc::Global;
use std::mem::forget;
use std::str;
use std::sync::Wait;
use std::thread::Threads;

/// Room for the calls and the bytes of a disk, and for the bytes of an output.
const ROOM: usize = 8_192;

const SCRIPT: &str = "time 1000
regions 2
handlers 1
put 1 1 sync 1
cell r f q 1 put v
put 1 2 sync 1
cell r f q 1 put w
flush 1 1
roll 1
";

/// A run on two disks whose memory is taken here. What it leaves is not dropped.
fn run_safe<R: Threads + Wait + Sync + AllocGlobal>(
    rt: &R,
    source: &mut SafeSource,
    sink: &mut SafeSink,
) -> Option<GroupsStatus> {
    let alloc = rt.alloc();
    let first = SafeDisk::new(alloc, ROOM).ok()?;
    let second = SafeDisk::new(alloc, ROOM).ok()?;
    let disks = GroupList::of(first, Some(second), None, None);
    let outcome = run_groups(rt, alloc, &["2"], source, disks, sink, &FreeGate);
    let GroupsOutcome { status, disks } = outcome;
    forget(disks);
    Some(status)
}

/// Whether a run may end so: done, or refused memory, which the report tells or the one line in its place.
fn may_end(status: GroupsStatus, text: &str) -> bool {
    match status {
        GroupsStatus::Done => text.ends_with("\nend 0\n"),
        GroupsStatus::Memory => text.ends_with("\nend 1\n") || text == "refused memory\n",
        _ => false,
    }
}

fn streams(alloc: Global) -> Option<(SafeSource, SafeSink)> {
    let source = SafeSource::new(alloc, SCRIPT.as_bytes()).ok()?;
    let sink = SafeSink::new(alloc, ROOM).ok()?;
    Some((source, sink))
}

// Where the trial itself wants memory, there is nothing to look at.
#[test]
fn done_or_refused(rt: HostRuntime) {
    if let Some((mut source, mut sink)) = streams(rt.alloc()) {
        if let Some(status) = run_safe(&rt, &mut source, &mut sink) {
            let text = str::from_utf8(sink.as_slice()).unwrap_or("");
            expect(&rt, may_end(status, text), text);
        }
    }
}
