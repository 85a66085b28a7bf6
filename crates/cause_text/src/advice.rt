//! What is left of a store, and what to do next, where the status alone doesn't tell.

use crate::meant::Meant;

/// After a call that was refused memory.
pub fn memory_text(meant: Meant) -> &'static str {
    match meant {
        Meant::Recover | Meant::Compact => {
            "out of memory; nothing is lost: give it more memory, and the command again"
        }
        Meant::Run | Meant::Groups => {
            "out of memory; with a report its edits are durable, without one nothing is lost that was there: give it more memory, and recover tells how far each region goes"
        }
        Meant::Load => {
            "out of memory; the folder may have a part of the load: remove it before the next one"
        }
        _ => "out of memory; nothing was written: give it more memory",
    }
}

/// After a call of the disk that failed. Which one and why stands in the line before.
pub fn disk_text(meant: Meant) -> &'static str {
    match meant {
        Meant::Log => {
            "the puts that were answered ok are durable, and maybe the next one: show prints them; mend the cause, and run the script again in an empty folder"
        }
        Meant::Recover | Meant::Compact => {
            "nothing is lost: mend the cause, and give the command again"
        }
        Meant::Run | Meant::Groups => {
            "the synced puts that were answered ok are durable: mend the cause, and recover tells how far each region goes"
        }
        Meant::Load => "it may have a part of the load: mend the cause, and remove the folder",
        _ => "nothing was written: mend the cause, and give the command again",
    }
}

/// After an output that could not be written.
pub fn output_text(meant: Meant) -> &'static str {
    match meant {
        Meant::Log =>
            "the output is not whole; the log was written all the same: show prints what it has",
        Meant::Run | Meant::Groups => {
            "the report is not whole; the script has been run all the same: recover tells how far each region goes"
        }
        Meant::Recover | Meant::Compact => {
            "the output is not whole; the store has been opened all the same: recover prints how far each region goes"
        }
        Meant::Load => {
            "the output is not whole; the load is in the folder all the same: remove it before the next one"
        }
        _ => "the output is not whole; nothing was written to the store",
    }
}

/// Where a store that isn't empty is not wanted.
pub fn not_empty_text(meant: Meant) -> &'static str {
    match meant {
        Meant::Load => "load fills an empty folder",
        _ => "log begins a new store (run goes on with one)",
    }
}
