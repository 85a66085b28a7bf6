//! Scripts of 1 to 16 handlers on up to 64 regions, each run many times, since threads take turns in many orders: each run ends, each call is
//! answered, and each put is found again. What the answers have to be is proved of the command.

use crate::bench::{copy_of, empty_disk, expect, recover, run_free};
use crate::plans::{Plan, Step, count_puts, script_of, steps_of};
use crate::report::{count_replies, has_recovered};
use load_run::Status;
use std::process::Abort;
use std::sync::Wait;
use std::test::Fail as TestFail;
use std::thread::Threads;

/// Whether all puts are found again, each with its cell.
fn are_found(text: &str, steps: &[Step], regions: u64) -> bool {
    for before in 0..regions {
        let region = before.wrapping_add(1);
        if !has_recovered(text, region, count_puts(steps, region)) {
            return false;
        }
    }
    true
}

/// Runs a script once: each of its calls is answered, none of them with a refusal, and its puts are found again.
fn run_once<R: Threads + Wait + Sync + AllocGlobal + Abort>(
    rt: &R,
    plan: Plan,
) -> Result<(), TestFail> {
    let alloc = rt.alloc();
    let steps = steps_of(alloc, plan)?;
    let ran = run_free(rt, script_of(alloc, plan, steps)?, empty_disk(alloc, &[])?)?;
    let is_whole = count_replies(ran.text) == steps.len() && ran.text.ends_with("\nend 0\n");
    expect(rt, ran.status == Status::Done && is_whole, ran.text);
    let again = recover(rt, copy_of(alloc, ran.disk)?)?;
    let is_found = are_found(again.text, steps, plan.regions);
    expect(rt, again.status == Status::Done && is_found, again.text);
    Ok(())
}

/// A script is made from its starting number, handlers, regions and calls of each handler. How often it is run stands after them.
type Row = (u64, u64, u64, u64, u64);

const FEW_HANDLERS: [Row; 10] = [
    (1, 1, 1, 40, 20),
    (2, 1, 4, 40, 20),
    (3, 1, 2, 60, 20),
    (4, 1, 1, 80, 20),
    (5, 2, 1, 20, 20),
    (6, 2, 3, 20, 20),
    (7, 3, 2, 20, 20),
    (8, 3, 1, 16, 20),
    (9, 4, 1, 20, 20),
    (10, 4, 4, 16, 20),
];

const EIGHT_HANDLERS: [Row; 5] = [
    (11, 5, 2, 16, 20),
    (12, 6, 1, 12, 20),
    (13, 7, 4, 12, 20),
    (14, 8, 3, 12, 20),
    (15, 8, 1, 12, 20),
];

/// The last one calls on all regions that there may be.
const SIXTEEN_HANDLERS: [Row; 6] = [
    (16, 10, 2, 10, 20),
    (17, 12, 4, 8, 20),
    (18, 16, 1, 8, 20),
    (19, 16, 4, 8, 20),
    (20, 16, 3, 12, 20),
    (21, 16, 64, 12, 4),
];

/// Runs each script of a table, again and again.
fn run_all<R: Threads + Wait + Sync + AllocGlobal + Abort>(
    rt: &R,
    rows: &[Row],
) -> Result<(), TestFail> {
    for (start, handlers, regions, calls, times) in rows {
        let plan = Plan {
            start: *start,
            handlers: *handlers,
            regions: *regions,
            calls: *calls,
        };
        for _ in 0..*times {
            run_once(rt, plan)?;
        }
    }
    Ok(())
}

#[test]
fn few_handlers(rt: HostRuntime) -> Result<(), TestFail> {
    run_all(&rt, &FEW_HANDLERS)
}

#[test]
fn eight_handlers(rt: HostRuntime) -> Result<(), TestFail> {
    run_all(&rt, &EIGHT_HANDLERS)
}

#[test]
fn sixteen_handlers(rt: HostRuntime) -> Result<(), TestFail> {
    run_all(&rt, &SIXTEEN_HANDLERS)
}
