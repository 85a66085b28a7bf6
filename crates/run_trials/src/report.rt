//! What the lines of a report say.

/// The word of a line at this place, counted from 0. There is none where the line is shorter.
pub(crate) fn word(line: &str, at: usize) -> &str {
    for (i, word) in line.split(' ').enumerate() {
        if i == at {
            return word;
        }
    }
    ""
}

/// The number in a line at this place; 0 where there is none.
pub(crate) fn number(line: &str, at: usize) -> u64 {
    word(line, at).parse::<u64>().unwrap_or(0)
}

/// Whether the output has this line.
pub(crate) fn has_line(text: &str, wanted: &str) -> bool {
    for line in text.lines() {
        if line == wanted {
            return true;
        }
    }
    false
}

/// The last number of a region's edits, or of what was there before them.
pub(crate) fn journal_last(report: &str, region: u64) -> u64 {
    let mut at = 0;
    let mut last = 0;
    for line in report.lines() {
        if word(line, 0) == "region" {
            at = number(line, 1);
            if at == region {
                last = number(line, 3);
            }
        }
        if word(line, 0) == "edit" && at == region {
            last = number(line, 1);
        }
    }
    last
}

/// Whether `recover` printed of a region so many edits and cells; of a region without any it prints nothing.
pub(crate) fn has_recovered(text: &str, region: u64, count: u64) -> bool {
    for line in text.lines() {
        if word(line, 0) == "recovered" && number(line, 1) == region {
            return number(line, 2) == count && number(line, 3) == count;
        }
    }
    count == 0
}

/// How many calls are answered.
pub(crate) fn count_replies(report: &str) -> usize {
    let mut count: usize = 0;
    for line in report.lines() {
        if line.starts_with("reply ") {
            count = count.wrapping_add(1);
        }
    }
    count
}
