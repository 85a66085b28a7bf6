//! What a crash may leave of runs whose last commit failed, at each of their moments.

use crate::bench::{Ended, crash_at, empty_disk, expect, recover, run_free};
use crate::report::{has_line, has_recovered};
use disk_fakes::{CallKind, Fail};
use load_run::Status;
use std::process::Abort;
use std::sync::Wait;
use std::test::Fail as TestFail;
use std::thread::Threads;

const FIVE_PUTS: &str = "time 1000
regions 1
handlers 1
put 1 1 sync 1
cell r f q 1 put v
put 1 1 sync 1
cell r f q 1 put v
put 1 1 sync 1
cell r f q 1 put v
put 1 1 sync 1
cell r f q 1 put v
put 1 1 sync 1
cell r f q 1 put v
";

const ONE_ASYNC: &str = "time 1000
regions 1
handlers 1
put 1 1 async 1
cell r f q 1 put v
";

/// A script, which sync fails, counted from 1, or 0 for none; the status, and a line of the report; and how many edits there are in each image
/// of the disk that is left, at least and at most. None has more at an earlier moment.
#[derive(Clone, Copy)]
struct Row {
    script: &'static str,
    nth: u64,
    status: Status,
    line: &'static str,
    fewest: u64,
    most: u64,
}

/// 1. The ninth sync is the second one of the fourth put's commit. The fourth edit may be there.
/// 2. The end of the run commits a put that doesn't wait for the log.
/// 3. The first sync of that commit fails.
const ROWS: [Row; 3] = [
    Row {
        script: FIVE_PUTS,
        nth: 9,
        status: Status::DiskFault,
        line: "reply 1 4 put fault 4",
        fewest: 3,
        most: 4,
    },
    Row {
        script: ONE_ASYNC,
        nth: 0,
        status: Status::Done,
        line: "reply 1 1 put ok 1",
        fewest: 1,
        most: 1,
    },
    Row {
        script: ONE_ASYNC,
        nth: 2,
        status: Status::DiskFault,
        line: "reply 1 1 put ok 1",
        fewest: 0,
        most: 0,
    },
];

/// Whether so many edits are recovered at least, and so many at most.
fn is_within(text: &str, fewest: u64, most: u64) -> bool {
    for count in fewest..most.saturating_add(1) {
        if has_recovered(text, 1, count) {
            return true;
        }
    }
    false
}

/// Asserts what is recovered of each image at a moment.
fn assert_images<R: Threads + Wait + Sync + AllocGlobal + Abort>(
    rt: &R,
    ran: Ended,
    moment: u64,
    fewest: u64,
    most: u64,
) -> Result<(), TestFail> {
    for choice in 0..4 {
        let image = crash_at(rt.alloc(), ran.disk, moment, choice)?;
        let found = recover(rt, image)?;
        let is_so = found.status == Status::Done && is_within(found.text, fewest, most);
        expect(rt, is_so, found.text);
    }
    Ok(())
}

/// Runs a script, and looks at each image of each moment.
fn assert_row<R: Threads + Wait + Sync + AllocGlobal + Abort>(
    rt: &R,
    row: &Row,
) -> Result<(), TestFail> {
    let fail = Fail {
        call: CallKind::Sync,
        nth: row.nth,
    };
    let ran = run_free(rt, row.script, empty_disk(rt.alloc(), &[fail])?)?;
    let is_told = ran.status == row.status && has_line(ran.text, row.line);
    let last = ran.disk.clock();
    expect(rt, is_told && last < 1_000, ran.text);
    for moment in 0..last {
        assert_images(rt, ran, moment, 0, row.most)?;
    }
    assert_images(rt, ran, last, row.fewest, row.most)
}

#[test]
fn each_image_of_a_failed_commit(rt: HostRuntime) -> Result<(), TestFail> {
    for row in &ROWS {
        assert_row(&rt, row)?;
    }
    Ok(())
}
