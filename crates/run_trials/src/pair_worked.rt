//! Worked runs on two empty disks, and what a crash leaves of them.

use crate::bench::{crash_at, empty_disk, expect};
use crate::gates::Hold;
use crate::pairs::{PairEnded, run_pair, run_pair_free};
use disk_fakes::{CallKind, Fail};
use groups_command::GroupsStatus;
use script_text::ScriptWhy;
use std::process::Abort;
use std::sync::Wait;
use std::test::Fail as TestFail;
use std::thread::Threads;

/// Each handler calls on a region of its own, so on a group of its own; the second one's roll ends the log of the second disk.
pub(crate) const SCRIPT: &str = "time 1700000000000
regions 2
handlers 2
put 1 1 sync 2
cell user1 info name now put Ann
cell user1 info mail now put ann@x
put 2 2 sync 1
cell k1 f q 5 put v
scan 1 1 - -
flush 1 1
roll 2
scan 2 2 k1 k2
";

const REPORT: &str = "hwal 1
region 1 base 0 0
edit 1 1 1 done
region 2 base 0 0
edit 1 2 1 done
reply 1 1 put ok 1
reply 1 2 scan 1 2
cell 1 user1 info mail 1700000000000 put ann@x
cell 1 user1 info name 1700000000000 put Ann
reply 1 3 flush ok 1
reply 2 1 put ok 1
reply 2 2 roll ok 1 1
reply 2 3 scan 1 1
cell 1 k1 f q 5 put v
end 0
";

const TWO_PUTS: &str = "time 1000
regions 2
handlers 2
put 1 1 sync 1
cell r f q 1 put v
put 2 2 sync 1
cell r f q 1 put w
";

const PUTS_REPORT: &str = "hwal 1
region 1 base 0 0
edit 1 1 1 done
region 2 base 0 0
edit 1 2 1 done
reply 1 1 put ok 1
reply 2 1 put ok 1
end 0
";

const FAULT_REPORT: &str = "hwal 1
region 1 base 0 0
edit 1 1 1 failed
region 2 base 0 0
edit 1 2 1 done
reply 1 1 put fault 1
reply 2 1 put ok 1
end 5
";

/// A script without calls: a run of it prints what was found.
pub(crate) const NO_CALLS: &str = "time 1\nregions 2\nhandlers 1\n";

/// What it prints after the first script.
pub(crate) const FOUND: &str = "hwal 1\nregion 1 base 1 2\nregion 2 base 1 1\nend 0\n";

const BOTH: &str = "hwal 1\nregion 1 base 1 1\nregion 2 base 1 1\nend 0\n";

const SECOND: &str = "hwal 1\nregion 1 base 0 0\nregion 2 base 1 1\nend 0\n";

const NONE: &str = "hwal 1\nregion 1 base 0 0\nregion 2 base 0 0\nend 0\n";

/// A script with a get, which is for one disk alone.
const GET: &str = "time 1000
regions 2
handlers 1
put 1 2 sync 1
cell r f q 1 put w
get 1 2 r 1
";

/// A run on empty disks: its word and script, how its handlers are held, and which sync of the first disk fails, counted from 1, or 0 for
/// none; its status and what it prints; how many calls and logged puts pass the gate; and what is found of whatever a crash may leave then.
#[derive(Clone, Copy)]
struct Row {
    word: &'static str,
    script: &'static str,
    hold: Hold,
    nth: u64,
    status: GroupsStatus,
    text: &'static str,
    begun: u64,
    logged: u64,
    found: &'static str,
}

/// Each put is held after its edit until six syncs were begun: one of each new log, and two of each put's batch. So threads beside the handlers
/// write the batch of each group.
const HELPED: Row = Row {
    word: "2",
    script: TWO_PUTS,
    hold: Hold::UntilSyncs(6),
    nth: 0,
    status: GroupsStatus::Done,
    text: PUTS_REPORT,
    begun: 2,
    logged: 2,
    found: BOTH,
};

// In the second row each put is held after its edit until the other's edit, in the other log, is logged too. In the third the first sync of the first
// put's commit fails.
const ROWS: [Row; 5] = [
    Row {
        word: "2",
        script: SCRIPT,
        hold: Hold::Nobody,
        nth: 0,
        status: GroupsStatus::Done,
        text: REPORT,
        begun: 6,
        logged: 2,
        found: FOUND,
    },
    Row {
        word: "2",
        script: TWO_PUTS,
        hold: Hold::UntilLogged(2),
        nth: 0,
        status: GroupsStatus::Done,
        text: PUTS_REPORT,
        begun: 2,
        logged: 2,
        found: BOTH,
    },
    Row {
        word: "2",
        script: TWO_PUTS,
        hold: Hold::Nobody,
        nth: 2,
        status: GroupsStatus::DiskFault,
        text: FAULT_REPORT,
        begun: 2,
        logged: 2,
        found: SECOND,
    },
    Row {
        word: "3",
        script: TWO_PUTS,
        hold: Hold::Nobody,
        nth: 0,
        status: GroupsStatus::Usage,
        text: "refused usage\n",
        begun: 0,
        logged: 0,
        found: NONE,
    },
    Row {
        word: "2",
        script: GET,
        hold: Hold::Nobody,
        nth: 0,
        status: GroupsStatus::Script {
            line: 6,
            why: ScriptWhy::NotHere,
        },
        text: "refused script 6 not-here\n",
        begun: 0,
        logged: 0,
        found: NONE,
    },
];

/// Asserts what is found of what a crash at the last moment may leave.
fn assert_found<R: Threads + Wait + Sync + AllocGlobal + Abort>(
    rt: &R,
    ran: PairEnded,
    choice: u64,
    found: &str,
) -> Result<(), TestFail> {
    let alloc = rt.alloc();
    let first = crash_at(alloc, ran.first, ran.first.clock(), choice)?;
    let second = crash_at(alloc, ran.second, ran.second.clock(), choice)?;
    let again = run_pair_free(rt, NO_CALLS, first, second)?;
    let holds = again.status == GroupsStatus::Done && again.text == found;
    expect(rt, holds, again.text);
    Ok(())
}

fn assert_row<R: Threads + Wait + Sync + AllocGlobal + Abort>(
    rt: &R,
    row: &Row,
) -> Result<(), TestFail> {
    let fail = Fail {
        call: CallKind::Sync,
        nth: row.nth,
    };
    let first = empty_disk(rt.alloc(), &[fail])?;
    let second = empty_disk(rt.alloc(), &[])?;
    let ran = run_pair(rt, row.word, row.script, first, second, row.hold)?;
    let is_told = ran.status == row.status && ran.text == row.text;
    expect(
        rt,
        is_told && ran.passed.has(row.begun, row.logged),
        ran.text,
    );
    for choice in 0..4 {
        assert_found(rt, ran, choice, row.found)?;
    }
    Ok(())
}

#[test]
fn extra_threads_commit_each_log(rt: HostRuntime) -> Result<(), TestFail> {
    assert_row(&rt, &HELPED)
}

#[test]
fn runs_on_empty_disks(rt: HostRuntime) -> Result<(), TestFail> {
    for row in &ROWS {
        assert_row(&rt, row)?;
    }
    Ok(())
}
