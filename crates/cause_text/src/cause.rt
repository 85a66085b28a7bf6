//! The cause of a status in one line.

ghost use Rattle.std.specs.Prelude.{◌≡◌, ◌↔◌, None};

use crate::advice::{disk_text, memory_text, not_empty_text, output_text};
use crate::meant::Meant;
use crate::place::Place;
use crate::script::script_text;
use crate::usage::usage_text;
use command_base::{Damage, Status};
use disk_folder::Spelled;
use std::fmt;

/// Why a command ended as it did, what is left of the store, and what to do next.
#[derive(Drop)]
pub struct Cause<'a> {
    meant: Meant,
    status: Status,
    place: &'a Place<'a>,
}

impl<'a> Cause<'a> {
    /// That of a command on this folder. Each status but that of a command that did its work has one.
    pub fn of(meant: Meant, status: Status, place: &'a Place<'a>) -> Option<Self>
        ensures { (result ≡ None) ↔ (status ≡ Status.Done) }
    {
        match status {
            Status::Done => None,
            status => Some(Cause {
                meant,
                status,
                place,
            }),
        }
    }

    /// Of a status that needs no number, no name and no folder.
    fn text(&self) -> &'static str {
        match self.status {
            Status::Memory => memory_text(self.meant),
            Status::SourceFault => {
                "the script could not be read from standard input; nothing was written"
            }
            _ => output_text(self.meant),
        }
    }
}

impl fmt::Display for Cause<'_> {
    fn fmt<W: fmt::Write>(&self, f: &mut fmt::Formatter<W>) -> fmt::Result {
        let place = self.place;
        match self.status {
            Status::Usage => {
                write!(f, "these words name no command; {}", usage_text(self.meant))
            }
            Status::Script { line, why } => write_line(f, line, script_text(self.meant, why)),
            Status::Damaged(damage) => write_damage(f, place, damage),
            Status::DiskFault => write!(f, "the store is {place}; {}", disk_text(self.meant)),
            Status::NotEmpty { name } => {
                let name = Spelled(name);
                let wanted = not_empty_text(self.meant);
                write!(
                    f,
                    "{place} has the file {name}, and {wanted}; nothing was written: move the folder away, or work in another directory"
                )
            }
            Status::NumbersSpent { region, last } => {
                write!(
                    f,
                    "region {region} has no number above {last} left: it takes no put any more; the edits of the report are durable"
                )
            }
            Status::NoPosition { file, has } => {
                write!(
                    f,
                    "there is no such position: log-{file} of {place} has {has} entries, or isn't there while a later log is; begin at the last position that was printed of this store"
                )
            }
            _ => f.write_str(self.text()),
        }
    }
}

/// A line of a script, counted from 1. Line 0 stands for a script that is too long.
fn write_line<W: fmt::Write>(f: &mut fmt::Formatter<W>, line: u64, text: &str) -> fmt::Result {
    if line == 0 {
        write!(f, "the script is too long: {text}; nothing was written")
    } else {
        write!(f, "line {line} of the script: {text}; nothing was written")
    }
}

fn write_damage<W: fmt::Write>(
    f: &mut fmt::Formatter<W>,
    place: &Place<'_>,
    damage: Damage,
) -> fmt::Result {
    match damage {
        Damage::Bytes { name, at } => {
            let name = Spelled(name);
            write!(
                f,
                "the file {place}/{name} is damaged, which shows at byte {at}"
            )?;
        }
        Damage::Two {
            first,
            second,
            region,
            number,
        } => {
            let first = Spelled(first);
            let second = Spelled(second);
            write!(
                f,
                "the files {first} and {second} of {place} have different entries for number {number} of region {region}"
            )?;
        }
    }
    f.write_str(
        "; nothing was changed, skipped or repaired: restore the folder from a copy (tools/hwal-stat lists each damaged file)",
    )
}
