//! The words of a command, where other words, more or fewer were given.

use crate::meant::Meant;

/// The words that the command takes which was meant.
pub fn usage_text(meant: Meant) -> &'static str {
    match meant {
        Meant::Log => "usage: hwal log < SCRIPT, with no other word",
        Meant::Run => "usage: hwal run < SCRIPT, with no other word",
        Meant::Show => "usage: hwal show, with no other word",
        Meant::Recover => "usage: hwal recover, with no other word",
        Meant::Dump => "usage: hwal dump NUMBER, with NUMBER from 0 to 18446744073709551615",
        Meant::Ship => {
            "usage: hwal ship FILE ENTRIES, with FILE from 1 to 9223372036854775808 and ENTRIES from 0 to 9223372036854775807; ship 1 0 begins with log-1"
        }
        Meant::Compact => {
            "usage: hwal compact minor REGION or hwal compact major REGION, with REGION from 1 to 64"
        }
        Meant::Load => {
            "usage: hwal load --start N --handlers H --regions R --count C, with N below 2^64, H from 1 to 16, R from 1 to 64, C from 1 to 10000"
        }
        Meant::Groups =>
            "usage: hwal_groups N < SCRIPT, with N from 1 to 4; ./hwal groups N calls it",
        Meant::Unknown => {
            "usage: hwal log, run, show, recover, dump NUMBER, ship FILE ENTRIES, compact minor REGION, compact major REGION, or load --start N --handlers H --regions R --count C; log and run read a script from standard input"
        }
    }
}
