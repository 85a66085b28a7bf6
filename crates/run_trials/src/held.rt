//! Handlers that are held where another thread goes on.

use crate::bench::{call, empty_disk, expect};
use crate::gates::Hold;
use crate::report::has_line;
use load_run::Status;
use std::process::Abort;
use std::sync::Wait;
use std::test::Fail as TestFail;
use std::thread::Threads;

const ONE_PUT: &str = "time 1000
regions 1
handlers 1
put 1 1 sync 1
cell r f q 1 put v
";

const PUTS_OF_ONE_REGION: &str = "time 1000
regions 1
handlers 2
put 1 1 sync 1
cell r f q 1 put v
put 2 1 sync 1
cell r f q 1 put w
";

const PUTS_OF_TWO_REGIONS: &str = "time 1000
regions 2
handlers 2
put 1 1 sync 1
cell r f q 1 put v
put 2 2 sync 1
cell r f q 1 put w
";

const TWO_FLUSHES: &str = "time 1000
regions 1
handlers 2
put 1 1 sync 1
cell r f q 1 put v
flush 1 1
flush 2 1 g
roll 2
";

const FLUSHED_TWICE: &str = "time 1000
regions 1
handlers 2
put 1 1 sync 1
cell r f q 1 put v
put 1 1 sync 1
cell r f q 1 put v
flush 1 1
flush 1 1
roll 1
flush 2 1
";

/// A script, how its handlers are held, how many calls and logged puts pass the gate, and lines of the report, or others in their place.
#[derive(Clone, Copy)]
struct Row {
    script: &'static str,
    hold: Hold,
    begun: u64,
    logged: u64,
    lines: &'static str,
    others: &'static str,
}

/// The put's handler is held after its edit, so another thread writes the batch: a sync of the new log, two of the batch.
const HELPED: Row = Row {
    script: ONE_PUT,
    hold: Hold::UntilSyncs(3),
    begun: 1,
    logged: 1,
    lines: ANSWERED,
    others: ANSWERED,
};

/// Each put is held after its edit until the other's edit is logged too. They come in one order or the other.
const TOGETHER: Row = Row {
    script: PUTS_OF_ONE_REGION,
    hold: Hold::UntilLogged(2),
    begun: 2,
    logged: 2,
    lines: IN_ORDER,
    others: EXCHANGED,
};

/// 1. So it is with puts into two regions.
/// 2. The first flush is held in the fourth sync, that of its store's bytes: a sync of the new log and two of the put's batch came
///    before it. Meanwhile the second one comes, of another family, and is back before the first may go on.
/// 3. The second handler is held until both flushes of the first one are done.
const ROWS: [Row; 3] = [
    Row {
        script: PUTS_OF_TWO_REGIONS,
        hold: Hold::UntilLogged(2),
        begun: 2,
        logged: 2,
        lines: BESIDE,
        others: BESIDE,
    },
    Row {
        script: TWO_FLUSHES,
        hold: Hold::Disk(2, 4),
        begun: 4,
        logged: 1,
        lines: BUSY,
        others: BUSY,
    },
    Row {
        script: FLUSHED_TWICE,
        hold: Hold::UntilCall(5),
        begun: 6,
        logged: 2,
        lines: NOTHING,
        others: NOTHING,
    },
];

const ANSWERED: &str = "reply 1 1 put ok 1";

const IN_ORDER: &str = "reply 1 1 put ok 1\nreply 2 1 put ok 2";

const EXCHANGED: &str = "reply 1 1 put ok 2\nreply 2 1 put ok 1";

const BESIDE: &str = "reply 1 1 put ok 1\nreply 2 1 put ok 1";

const BUSY: &str = "reply 1 2 flush ok 1\nreply 2 1 flush busy 1 2\nend 0";

const NOTHING: &str = "reply 1 3 flush ok 2\nreply 1 4 flush nothing 2\nreply 2 1 flush nothing 2";

fn has_all(text: &str, lines: &str) -> bool {
    for line in lines.lines() {
        if !has_line(text, line) {
            return false;
        }
    }
    true
}

fn assert_row<R: Threads + Wait + Sync + AllocGlobal + Abort>(
    rt: &R,
    row: &Row,
) -> Result<(), TestFail> {
    let ran = call(
        rt,
        "run",
        row.script,
        empty_disk(rt.alloc(), &[])?,
        row.hold,
    )?;
    let is_told = has_all(ran.text, row.lines) || has_all(ran.text, row.others);
    let is_passed = ran.passed.has(row.begun, row.logged);
    expect(
        rt,
        ran.status == Status::Done && is_told && is_passed,
        ran.text,
    );
    Ok(())
}

#[test]
fn extra_threads_commit(rt: HostRuntime) -> Result<(), TestFail> {
    assert_row(&rt, &HELPED)
}

#[test]
fn second_put_passes_first(rt: HostRuntime) -> Result<(), TestFail> {
    assert_row(&rt, &TOGETHER)
}

#[test]
fn handlers_are_held(rt: HostRuntime) -> Result<(), TestFail> {
    for row in &ROWS {
        assert_row(&rt, row)?;
    }
    Ok(())
}
