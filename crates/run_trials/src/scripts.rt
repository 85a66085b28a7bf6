//! Scripts that are refused: each cause once, and the first of two in one line.

use crate::bench::{call, empty_disk, expect};
use crate::gates::Hold;
use load_run::Status;
use std::alloc::{AllocError, Global};
use std::process::Abort;
use std::sync::Wait;
use std::test::Fail as TestFail;
use std::thread::Threads;

/// The lines before those of a case.
const HEAD: &str = "time 1000\nregions 1\nhandlers 1\n";

/// A command's word, the lines after the head lines, and which line is refused for what.
type Case = (&'static str, &'static str, &'static str);

const CAUSES: [Case; 14] = [
    ("run", "merge 1 1\n", "4 word"),
    ("run", "roll +1\n", "4 number"),
    ("run", "scan 1 1 a%4 -\n", "4 token"),
    ("run", "flush 1 2\n", "4 region"),
    ("run", "roll 2\n", "4 handler"),
    ("run", "put 1 1 sync 0\n", "4 count"),
    ("run", "put 1 1 sync 1\ncell - f q 1 put v\n", "5 cell-1"),
    ("run", "put 1 1 sync 1\ncell r - q 1 put v\n", "5 cell-2"),
    (
        "run",
        "put 1 1 sync 1\ncell r f q 9223372036854775808 put v\n",
        "5 cell-5",
    ),
    ("run", "put 1 1 sync 1\ncell r f q 1 merge v\n", "5 cell-6"),
    ("log", "roll 1\n", "4 not-here"),
    ("run", "table -\n", "4 table-length"),
    ("run", "put 1 1 sync 1\nroll 1\n", "5 count"),
    ("run", "put 1 1 sync 1\n", "5 count"),
];

/// Lines with two causes, of which the first counts: the word, then the fields from the left, a token before its length, then what the
/// command doesn't take.
const TWO_CAUSES: [Case; 16] = [
    ("log", "put x 2 late 0 0\n", "4 word"),
    ("log", "put x 2 late 0\n", "4 number"),
    ("log", "put 2 x late 0\n", "4 handler"),
    ("log", "put 1 x late 0\n", "4 number"),
    ("log", "put 1 2 late 0\n", "4 region"),
    ("log", "put 1 1 late 0\n", "4 word"),
    ("log", "put 1 1 async 0\n", "4 count"),
    ("log", "scan 2 2 % %\n", "4 handler"),
    ("log", "scan 1 1 % -\n", "4 token"),
    ("log", "put 1 1 sync 1\ncell - - % x merge\n", "5 word"),
    ("log", "put 1 1 sync 1\ncell % - q x merge v\n", "5 token"),
    ("log", "put 1 1 sync 1\ncell - % q x merge v\n", "5 cell-1"),
    ("log", "put 1 1 sync 1\ncell r - % x merge v\n", "5 cell-2"),
    ("log", "put 1 1 sync 1\ncell r f q x merge v\n", "5 number"),
    ("log", "put 1 1 sync 1\ncell r f q 1 merge %\n", "5 cell-6"),
    ("log", "put 1 1 sync 1\ncell r f q 1 delete %\n", "5 token"),
];

/// Lines that are too long to stand here: a first one, then one so often that has between two texts so many letters, and what is refused.
#[derive(Clone, Copy)]
struct Filled {
    first: &'static str,
    times: u64,
    before: &'static str,
    letters: u64,
    after: &'static str,
    wanted: &'static str,
}

const FILLED: [Filled; 6] = [
    Filled {
        first: "",
        times: 1,
        before: "",
        letters: 524_289,
        after: "\n",
        wanted: "4 too-long",
    },
    Filled {
        first: "put 1 1 sync 1\n",
        times: 1,
        before: "cell r f ",
        letters: 32_768,
        after: " 1 put v\n",
        wanted: "5 cell-3",
    },
    Filled {
        first: "put 1 1 sync 1\n",
        times: 1,
        before: "cell r f q 1 put ",
        letters: 65_537,
        after: "\n",
        wanted: "5 cell-4",
    },
    Filled {
        first: "put 1 1 sync 1\n",
        times: 1,
        before: "cell r f q 1 put v ",
        letters: 4_097,
        after: "\n",
        wanted: "5 cell-7",
    },
    Filled {
        first: "put 1 1 sync 16\n",
        times: 16,
        before: "cell r f q 1 put ",
        letters: 65_536,
        after: "\n",
        wanted: "20 entry-length",
    },
    Filled {
        first: "",
        times: 1,
        before: "table ",
        letters: 256,
        after: "\n",
        wanted: "4 table-length",
    },
];

/// Writes a line with so many letters.
fn write_line(text: &mut String, filled: &Filled) -> Result<(), AllocError> {
    text.push_str(filled.before)?;
    for _ in 0..filled.letters {
        text.push('v')?;
    }
    text.push_str(filled.after)
}

/// The lines of such a case. They are never dropped, as all that a trial makes.
fn lines_of(alloc: Global, filled: &Filled) -> Result<&'static str, TestFail> {
    let mut text = String::new(alloc);
    text.push_str(filled.first)?;
    for _ in 0..filled.times {
        write_line(&mut text, filled)?;
    }
    let text: &'static String = Box::leak(Box::new(alloc, text)?);
    Ok(text.as_str())
}

/// The head lines with these lines after them.
fn script_of(alloc: Global, lines: &str) -> Result<&'static str, TestFail> {
    let text = format!(in alloc; "{HEAD}{lines}")?;
    let text: &'static String = Box::leak(Box::new(alloc, text)?);
    Ok(text.as_str())
}

/// Whether this line and cause are reported, and nothing else.
fn is_told(text: &str, wanted: &str) -> bool {
    match text.strip_prefix("refused script ") {
        Some(rest) => rest.strip_suffix("\n") == Some(wanted),
        None => false,
    }
}

/// Asserts what is refused of a script with these lines.
fn assert_refused<R: Threads + Wait + Sync + AllocGlobal + Abort>(
    rt: &R,
    word: &str,
    lines: &str,
    wanted: &str,
) -> Result<(), TestFail> {
    let alloc = rt.alloc();
    let script = script_of(alloc, lines)?;
    let ran = call(rt, word, script, empty_disk(alloc, &[])?, Hold::Nobody)?;
    let is_refused = matches!(ran.status, Status::Script { .. });
    expect(rt, is_refused && is_told(ran.text, wanted), ran.text);
    Ok(())
}

/// Asserts what is refused in each case of a table.
fn assert_all<R: Threads + Wait + Sync + AllocGlobal + Abort>(
    rt: &R,
    cases: &[Case],
) -> Result<(), TestFail> {
    for (word, lines, wanted) in cases {
        assert_refused(rt, word, lines, wanted)?;
    }
    Ok(())
}

#[test]
fn bad_scripts(rt: HostRuntime) -> Result<(), TestFail> {
    assert_all(&rt, &CAUSES)?;
    assert_all(&rt, &TWO_CAUSES)?;
    for filled in &FILLED {
        let lines = lines_of(rt.alloc(), filled)?;
        assert_refused(&rt, "run", lines, filled.wanted)?;
    }
    Ok(())
}
