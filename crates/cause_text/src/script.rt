//! What is right in a line of a script, for each cause for which one is refused.

use crate::meant::Meant;
use script_model::{CellField, ScriptWhy};

/// What the command wants there.
pub fn script_text(meant: Meant, why: ScriptWhy) -> &'static str {
    match why {
        ScriptWhy::Word => {
            "the line begins with no word of a script, stands at the wrong place, or has too many or too few words: time, regions, handlers come first, words are parted by spaces and not by tabs, and a put is sync or async"
        }
        ScriptWhy::Number => {
            "a number is 1 to 20 digits and nothing else (no sign, no carriage return at the end of the line); regions goes from 1 to 64, handlers from 1 to 16"
        }
        ScriptWhy::Token => {
            "a token is bytes from ! to ~, and %XX with two hexadecimal digits for any other one: %25 is a %, %20 a space, %09 a tab; is there a tab, or a carriage return at the end of the line?"
        }
        ScriptWhy::Region =>
            "there is no such region: they have the numbers from 1 to that of the line regions",
        ScriptWhy::Handler => {
            "there is no such handler: they have the numbers from 1 to that of the line handlers"
        }
        ScriptWhy::Count => {
            "exactly COUNT cell lines, 1 to 1,024, follow a put, each beginning with cell and a space and not a tab, and none stands elsewhere; VERSIONS of a get is 1 to 1,000,000"
        }
        ScriptWhy::TooLong => "a line has at most 524,288 bytes, and a script at most 16,777,216",
        ScriptWhy::Cell(field) => field_text(field),
        ScriptWhy::NotHere => not_here_text(meant),
        ScriptWhy::EntryLength => {
            "with this cell the put is longer than an entry of the log, 1,048,576 bytes: make two puts of it"
        }
        ScriptWhy::TableLength => "NAME of a table has 1 to 255 bytes, and - is none",
    }
}

/// What a field of a cell has to be.
fn field_text(field: CellField) -> &'static str {
    match field {
        CellField::Row => "ROW has 1 to 32,767 bytes, and - is none",
        CellField::Family => "FAMILY has 1 to 127 bytes, and - is none",
        CellField::Qualifier => "QUALIFIER has at most 32,767 bytes",
        CellField::Value => "VALUE has at most 65,536 bytes",
        CellField::Timestamp => "TS is now, or a number below 9223372036854775808",
        CellField::Kind => {
            "KIND is put, delete, delete-family-version, delete-column or delete-family"
        }
        CellField::Tags => {
            "the seventh word of a cell line is its TAGS, of at most 4,096 bytes: is it meant to be of VALUE, whose spaces are written %20?"
        }
    }
}

/// Which right lines a command doesn't take.
fn not_here_text(meant: Meant) -> &'static str {
    match meant {
        Meant::Groups => "groups takes no get",
        _ => {
            "log takes one region, one handler, puts with sync, and cells of kind put without a seventh word, which would be tags; run takes this line"
        }
    }
}
