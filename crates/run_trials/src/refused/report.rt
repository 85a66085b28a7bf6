//! A plain judge of the reports of one script, of which calls may have been refused memory.

/// Handler 1 puts two cells into region 1, scans it and flushes their family; handler 2 puts one into region 2, rolls, and scans and gets that.
pub(crate) const SCRIPT: &str = "time 1700000000000
regions 2
handlers 2
put 1 1 sync 2
cell user1 info name now put Ann
cell user1 info mail now put ann@x
put 2 2 sync 1
cell k1 f q 5 put v
scan 1 1 - -
flush 1 1 info
roll 2
scan 2 2 k1 k2
get 2 2 k1 1
";

/// What a report tells: whether the put of handler 1, and that of handler 2, is an edit, and whether a call was refused.
#[derive(Clone, Copy, Debug, PartialEq, Eq)]
pub(crate) struct Told {
    pub(crate) first: bool,
    pub(crate) second: bool,
    pub(crate) refused: bool,
}

/// What is known of a script's calls on the way through its report: handler 1's put, and handler 2's, is an edit; each handler
/// has seen its own edit; a call was refused memory.
const FIRST: u32 = 1;

const SECOND: u32 = 2;

const FIRST_SEEN: u32 = 4;

const SECOND_SEEN: u32 = 8;

const REFUSED: u32 = 16;

/// A place of the report, what is known there and what is not, what is known after it, and a text that may stand there then.
type Line = (u32, u32, u32, u32, &'static str);

/// The places of a report in their order, and what may stand there. A put was seen exactly where it was answered ok. After a put
/// that was refused memory with a number, its edit may be seen or not, but once it was seen it stays. The edit of handler 1 may not
/// be in the log yet where handler 2 rolls.
const LINES: [Line; 31] = [
    (0, 0, 0, 0, "hwal 1\nregion 1 base 0 0\n"),
    (1, 0, 0, FIRST, "edit 1 1 1 done\n"),
    (1, 0, 0, 0, ""),
    (2, 0, 0, 0, "region 2 base 0 0\n"),
    (3, 0, 0, SECOND, "edit 1 2 1 done\n"),
    (3, 0, 0, 0, ""),
    (4, FIRST, 0, FIRST_SEEN, "reply 1 1 put ok 1\n"),
    (4, FIRST, 0, REFUSED, "reply 1 1 put memory 1\n"),
    (4, 0, FIRST, REFUSED, "reply 1 1 put memory\n"),
    (5, 0, 0, REFUSED, "reply 1 2 scan memory\n"),
    (5, FIRST, 0, FIRST_SEEN, SCANNED_1),
    (5, 0, FIRST_SEEN, 0, "reply 1 2 scan 0 0\n"),
    (6, 0, 0, REFUSED, "reply 1 3 flush memory\n"),
    (6, FIRST, 0, FIRST_SEEN, "reply 1 3 flush ok 1\n"),
    (6, 0, FIRST_SEEN, 0, "reply 1 3 flush nothing 0\n"),
    (7, SECOND, 0, SECOND_SEEN, "reply 2 1 put ok 1\n"),
    (7, SECOND, 0, REFUSED, "reply 2 1 put memory 1\n"),
    (7, 0, SECOND, REFUSED, "reply 2 1 put memory\n"),
    (8, 0, 0, REFUSED, "reply 2 2 roll memory\n"),
    (8, SECOND, 0, 0, "reply 2 2 roll ok 1 1\n"),
    (8, FIRST, SECOND, 0, "reply 2 2 roll ok 1 1\n"),
    (8, FIRST | SECOND, 0, 0, "reply 2 2 roll ok 1 2\n"),
    (8, 0, SECOND, 0, "reply 2 2 roll nothing 1\n"),
    (9, 0, 0, REFUSED, "reply 2 3 scan memory\n"),
    (9, SECOND, 0, SECOND_SEEN, SCANNED_2),
    (9, 0, SECOND_SEEN, 0, "reply 2 3 scan 0 0\n"),
    (10, 0, 0, REFUSED, "reply 2 4 get memory\n"),
    (10, SECOND, 0, SECOND_SEEN, GOT_2),
    (10, 0, SECOND_SEEN, 0, "reply 2 4 get 0 0\n"),
    (11, REFUSED, 0, 0, "end 1\n"),
    (11, 0, REFUSED, 0, "end 0\n"),
];

const SCANNED_1: &str = "reply 1 2 scan 1 2
cell 1 user1 info mail 1700000000000 put ann@x
cell 1 user1 info name 1700000000000 put Ann
";

const SCANNED_2: &str = "reply 2 3 scan 1 1\ncell 1 k1 f q 5 put v\n";

const GOT_2: &str = "reply 2 4 get 1 1\ncell 1 k1 f q 5 put v\n";

/// A report that was read up to a place: what is behind it, and what is known there.
#[derive(Clone, Copy)]
struct Reading<'a> {
    rest: &'a str,
    known: u32,
    place: u32,
}

impl<'a> Reading<'a> {
    /// The same, or after this line where it may stand here and does.
    fn past(self, line: &Line) -> Reading<'a> {
        let (place, has, lacks, told, text) = *line;
        if place != self.place || self.known & has != has || self.known & lacks != 0 {
            return self;
        }
        match self.rest.strip_prefix(text) {
            Some(rest) => Reading {
                rest,
                known: self.known | told,
                place: place.saturating_add(1),
            },
            None => self,
        }
    }
}

/// A report that was read as far as it is a lawful one of the script.
fn read_all(text: &str) -> Reading<'_> {
    let mut reading = Reading {
        rest: text,
        known: 0,
        place: 0,
    };
    for line in &LINES {
        reading = reading.past(line);
    }
    reading
}

/// What a report tells, where it is a lawful one of the script: `end 1` exactly where a call was refused memory.
pub(crate) fn read_report(text: &str) -> Option<Told> {
    let Reading { rest, known, place } = read_all(text);
    if place != 12 || !rest.is_empty() {
        return None;
    }
    Some(Told {
        first: known & FIRST != 0,
        second: known & SECOND != 0,
        refused: known & REFUSED != 0,
    })
}

/// What `recover` prints of a disk with these edits.
fn recovered_of(first: bool, second: bool) -> &'static str {
    match (first, second) {
        (true, true) => "recovered 1 1 2\nrecovered 2 1 1\nend 0\n",
        (true, false) => "recovered 1 1 2\nend 0\n",
        (false, true) => "recovered 2 1 1\nend 0\n",
        (false, false) => "end 0\n",
    }
}

/// Whether `recover` printed what has to be there: the report's edits, or any where no report was printed.
pub(crate) fn is_kept(told: Option<Told>, text: &str) -> bool {
    match told {
        Some(told) => text == recovered_of(told.first, told.second),
        None => {
            text == recovered_of(true, true)
                || text == recovered_of(true, false)
                || text == recovered_of(false, true)
                || text == recovered_of(false, false)
        }
    }
}
