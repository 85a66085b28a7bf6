//! Scripts that are made from a number.

use std::alloc::{AllocError, Global};
use std::fmt::Write;
use std::test::Fail as TestFail;

#[derive(Clone, Copy, PartialEq, Eq)]
enum Kind {
    SyncPut,
    AsyncPut,
    Scan,
    Get,
    Flush,
    Roll,
}

/// A call of a script. A put has one cell in the row, with its handler and call as the value; a scan is of all rows, or of `r1` and `r2`
/// where the row isn't 0; a get is of the newest version of the row; a flush is of family f where the row is
/// 1, of g, which no cell has, where it is 2, and else of all.
#[derive(Clone, Copy)]
pub(crate) struct Step {
    handler: u64,
    call: u64,
    region: u64,
    row: u64,
    kind: Kind,
}

/// How a script is made: how many handlers on how many regions, and how many calls each.
#[derive(Clone, Copy)]
pub(crate) struct Plan {
    pub(crate) start: u64,
    pub(crate) handlers: u64,
    pub(crate) regions: u64,
    pub(crate) calls: u64,
}

/// The rows of cells.
const ROWS: u64 = 4;

/// The next of numbers that follow one another by a rule, and look like none: from 0 to 2^31-1.
fn next(state: &mut u64) -> u64 {
    *state = (*state)
        .wrapping_mul(6_364_136_223_846_793_005)
        .wrapping_add(1_442_695_040_888_963_407);
    *state >> 33
}

/// Half of the calls are puts, a quarter scans and gets.
fn kind_of(number: u64) -> Kind {
    match number % 16 {
        0..=5 => Kind::SyncPut,
        6..=7 => Kind::AsyncPut,
        8..=10 => Kind::Scan,
        11 => Kind::Get,
        12..=14 => Kind::Flush,
        _ => Kind::Roll,
    }
}

/// A call that the next numbers make.
fn step_of(state: &mut u64, regions: u64, handler: u64, call: u64) -> Step {
    let before = next(state).checked_rem(regions).unwrap_or(0);
    Step {
        handler,
        call,
        region: before.wrapping_add(1),
        row: next(state) % ROWS,
        kind: kind_of(next(state)),
    }
}

/// The calls of a script, handler by handler.
pub(crate) fn steps_of(alloc: Global, plan: Plan) -> Result<&'static [Step], TestFail> {
    let mut state = plan.start;
    let mut steps = Vec::new(alloc);
    for handler in 0..plan.handlers {
        for call in 0..plan.calls {
            let (one, other) = (handler.wrapping_add(1), call.wrapping_add(1));
            steps.push(step_of(&mut state, plan.regions, one, other))?;
        }
    }
    Ok(steps.leak())
}

fn write_put(text: &mut String, step: Step) -> Result<(), AllocError> {
    let Step {
        handler,
        call,
        region,
        row,
        kind,
    } = step;
    let mode = if kind == Kind::SyncPut {
        "sync"
    } else {
        "async"
    };
    writeln!(
        text,
        "put {handler} {region} {mode} 1\ncell r{row} f q 1 put {handler}-{call}"
    )
}

fn write_step(text: &mut String, step: Step) -> Result<(), AllocError> {
    let Step {
        handler,
        region,
        row,
        ..
    } = step;
    match (step.kind, row) {
        (Kind::SyncPut | Kind::AsyncPut, _) => write_put(text, step),
        (Kind::Scan, 0) => writeln!(text, "scan {handler} {region} - -"),
        (Kind::Scan, _) => writeln!(text, "scan {handler} {region} r1 r3"),
        (Kind::Get, _) => writeln!(text, "get {handler} {region} r{row} 1"),
        (Kind::Flush, 1) => writeln!(text, "flush {handler} {region} f"),
        (Kind::Flush, 2) => writeln!(text, "flush {handler} {region} g"),
        (Kind::Flush, _) => writeln!(text, "flush {handler} {region}"),
        (Kind::Roll, _) => writeln!(text, "roll {handler}"),
    }
}

fn write_steps(text: &mut String, steps: &[Step]) -> Result<(), AllocError> {
    for step in steps {
        write_step(text, *step)?;
    }
    Ok(())
}

/// How many calls are puts into a region.
pub(crate) fn count_puts(steps: &[Step], region: u64) -> u64 {
    let mut count: u64 = 0;
    for step in steps {
        let is_put = matches!(step.kind, Kind::SyncPut | Kind::AsyncPut);
        if is_put && step.region == region {
            count = count.wrapping_add(1);
        }
    }
    count
}

/// The text of a script.
pub(crate) fn script_of(
    alloc: Global,
    plan: Plan,
    steps: &[Step],
) -> Result<&'static str, TestFail> {
    let Plan {
        handlers,
        regions,
        ..
    } = plan;
    let mut text = format!(in alloc; "time 1000\nregions {regions}\nhandlers {handlers}\n")?;
    write_steps(&mut text, steps)?;
    let text: &'static String = Box::leak(Box::new(alloc, text)?);
    Ok(text.as_str())
}
