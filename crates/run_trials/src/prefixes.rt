//! A script of two regions with three edits each, and what stands of them where a crash has left the first ones alone.

use crate::report::{number, word};

/// Handler 1 puts into region 1 alone, and handler 2 into region 2. The second call of each is the put that doesn't wait for the log.
/// Entries with a tag stand beside entries without any.
pub(crate) const SCRIPT: &str = "time 1000
regions 2
handlers 2
put 1 1 sync 2
cell a f q 1 put v
cell b f q 1 put v ab
put 2 2 sync 1
cell a f q 5 put v
put 1 1 async 1
cell a f q 1 put w
flush 1 1
put 2 2 async 2
cell a f q 5 delete -
cell c f q now put w cd
roll 2
put 1 1 sync 1
cell a f p 1 put v ef
put 2 2 sync 1
cell a f q 6 put v
";

/// Shows the cells of both regions.
pub(crate) const SCANS: &str = "time 1000
regions 2
handlers 1
scan 1 1 - -
scan 1 2 - -
";

/// What the scans print of a region where its first edits stand, from none to three of them: the line with its last number and how many
/// cells it has, and the reply with these: by column, the newer time first, then the delete, then the later edit.
type Prefixes = [(&'static str, &'static str); 4];

const FIRST: Prefixes = [
    ("region 1 base 0 0\n", "reply 1 1 scan 0 0\n"),
    (
        "region 1 base 1 2\n",
        "reply 1 1 scan 1 2\ncell 1 a f q 1 put v\ncell 1 b f q 1 put v ab\n",
    ),
    (
        "region 1 base 2 3\n",
        "reply 1 1 scan 2 3
cell 2 a f q 1 put w
cell 1 a f q 1 put v
cell 1 b f q 1 put v ab
",
    ),
    (
        "region 1 base 3 4\n",
        "reply 1 1 scan 3 4
cell 3 a f p 1 put v ef
cell 2 a f q 1 put w
cell 1 a f q 1 put v
cell 1 b f q 1 put v ab
",
    ),
];

const SECOND: Prefixes = [
    ("region 2 base 0 0\n", "reply 1 2 scan 0 0\n"),
    (
        "region 2 base 1 1\n",
        "reply 1 2 scan 1 1\ncell 1 a f q 5 put v\n",
    ),
    (
        "region 2 base 2 3\n",
        "reply 1 2 scan 2 3
cell 2 a f q 5 delete -
cell 1 a f q 5 put v
cell 2 c f q 1000 put w cd
",
    ),
    (
        "region 2 base 3 4\n",
        "reply 1 2 scan 3 4
cell 3 a f q 6 put v
cell 2 a f q 5 delete -
cell 1 a f q 5 put v
cell 2 c f q 1000 put w cd
",
    ),
];

/// Whether a text is these parts, one after the other.
fn is_made_of(text: &str, parts: &[&str]) -> bool {
    let mut rest = text;
    for part in parts {
        match rest.strip_prefix(*part) {
            Some(behind) => rest = behind,
            None => return false,
        }
    }
    rest.is_empty()
}

/// Whether the scans print this where so many edits of each region stand.
pub(crate) fn is_shown(text: &str, first: u64, second: u64) -> bool {
    let Some((one, cells)) = FIRST.get(first as usize) else {
        return false;
    };
    let Some((other, more)) = SECOND.get(second as usize) else {
        return false;
    };
    is_made_of(text, &["hwal 1\n", one, other, cells, more, "end 0\n"])
}

/// Whether a reply line says that its region is durable up to a number: that of a flush, or of a put that waits for the log.
fn is_receipt(line: &str) -> bool {
    let call = word(line, 3);
    let waits = call == "flush" || (call == "put" && number(line, 2) != 2);
    word(line, 0) == "reply" && word(line, 4) == "ok" && waits
}

/// The greatest number that a handler was told is durable.
pub(crate) fn durable(report: &str, handler: u64) -> u64 {
    let mut most: u64 = 0;
    for line in report.lines() {
        if number(line, 1) == handler && is_receipt(line) {
            most = most.max(number(line, 5));
        }
    }
    most
}
