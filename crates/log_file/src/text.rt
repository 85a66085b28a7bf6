//! The fixed pieces of a log's text.

ghost use Rattle.std.specs.Prelude.{◌≡◌, [], ◌∷◌, ◌++◌};
ghost use Rattle.log_file.specs.LogText.{at_rest, behind_end};

use entry_frame::file_header;
use log_model::CLOSED_GATE;

/// The text of a file without entries: the header and a closed gate.
pub fn new_text(number: u64) -> [u8; 17]
    ensures { result ≡ at_rest number [] }
{
    let mut text = [CLOSED_GATE; 17];
    text[..16].copy_from_slice(&file_header(number));
    text
}

/// An end frame, and a closed gate.
pub fn end_text(count: u64) -> [u8; 14]
    ensures { result ≡ behind_end count }
{
    let [a, b, c, d, e, f, g, h] = count.to_be_bytes();
    [2, 0, 0, 0, 8, a, b, c, d, e, f, g, h, 0]
}
