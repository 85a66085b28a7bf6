//! A log stopped at each moment.

use crate::bench::{call, crash_at, empty_disk, expect};
use crate::gates::Hold;
use load_run::Status;
use std::test::Fail as TestFail;

const TWO_PUTS: &str = "time 1000
regions 1
handlers 1
put 1 1 sync 1
cell r f q 1 put v
put 1 1 sync 1
cell r f q 1 put w
";

// What `show` prints of a log of none, one or both of two puts.
const NONE: &str = "end 0\n";

const ONE: &str = "region 1\ncell 1 r f q 1 put v\nend 0\n";

const BOTH: &str = "region 1\ncell 2 r f q 1 put w\ncell 1 r f q 1 put v\nend 0\n";

// The moments of a log of two puts, each with the fewest and the most that a crash there may leave: a put is there once
// its gate may be open, and stays once the gate is synced.
const STOPS: [(u64, &str, &str); 13] = [
    (0, NONE, NONE),
    (1, NONE, NONE),
    (2, NONE, NONE),
    (3, NONE, NONE),
    (4, NONE, NONE),
    (5, NONE, NONE),
    (6, NONE, NONE),
    (7, NONE, ONE),
    (8, ONE, ONE),
    (9, ONE, ONE),
    (10, ONE, ONE),
    (11, ONE, BOTH),
    (12, BOTH, BOTH),
];

#[test]
fn stopped_at_each_moment_a_prefix_is_there(rt: HostRuntime) -> Result<(), TestFail> {
    let alloc = rt.alloc();
    let ran = call(&rt, "log", TWO_PUTS, empty_disk(alloc, &[])?, Hold::Nobody)?;
    for (moment, fewest, most) in &STOPS {
        for choice in 0..4 {
            let image = crash_at(alloc, ran.disk, *moment, choice)?;
            let shown = call(&rt, "show", "", image, Hold::Nobody)?;
            let is_one = shown.text == *fewest || shown.text == *most;
            expect(&rt, shown.status == Status::Done && is_one, shown.text);
        }
    }
    Ok(())
}
