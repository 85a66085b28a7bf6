//! Bytes and names as they are told to a reader, after a text that is told before.

use crate::piece::Piece;
use disk_folder::Spelled;
use disk_images::Name;
use std::alloc::{AllocError, Global};
use std::fmt;

/// Of a line no more bytes are shown.
const MOST_BYTES: usize = 160;

/// A byte in hexadecimal, or `--` after the last one.
#[derive(Clone, Copy)]
pub struct ShownByte(pub Option<u8>);

impl fmt::Display for ShownByte {
    fn fmt<W: fmt::Write>(&self, f: &mut fmt::Formatter<W>) -> fmt::Result {
        match self.0 {
            Some(byte) => write!(f, "{byte:02X}"),
            None => f.write_str("--"),
        }
    }
}

/// Bytes as text: those from space to `~` as they are, a line feed as `\n`, each other one as `\xNN`. Of many the first
/// ones are shown, and how many there are.
pub fn add_bytes(alloc: Global, text: &mut String, bytes: &[u8]) -> Result<(), AllocError> {
    for byte in bytes.iter().take(MOST_BYTES) {
        add_byte(alloc, text, *byte)?;
    }
    if bytes.len() > MOST_BYTES {
        add_rest(alloc, text, bytes.len())?;
    }
    Ok(())
}

fn add_byte(alloc: Global, text: &mut String, byte: u8) -> Result<(), AllocError> {
    match byte {
        b' '..=b'~' => text.push(char::from(byte)),
        b'\n' => text.push_str("\\n"),
        _ => add_code(alloc, text, byte),
    }
}

fn add_code(alloc: Global, text: &mut String, byte: u8) -> Result<(), AllocError> {
    let spelled = format!(in alloc; "\\x{byte:02x}")?;
    text.push_str(spelled.as_str())
}

fn add_rest(alloc: Global, text: &mut String, count: usize) -> Result<(), AllocError> {
    let rest = format!(in alloc; ".. of {count} bytes")?;
    text.push_str(rest.as_str())
}

/// A line's pieces as text, where it may hold either of two texts in braces.
pub fn add_pieces(alloc: Global, text: &mut String, pieces: &[Piece]) -> Result<(), AllocError> {
    for piece in pieces {
        add_piece(alloc, text, &piece.options)?;
    }
    Ok(())
}

fn add_piece(alloc: Global, text: &mut String, options: &[Vec<u8>]) -> Result<(), AllocError> {
    match options {
        [only] => add_bytes(alloc, text, only),
        _ => add_options(alloc, text, options),
    }
}

fn add_options(alloc: Global, text: &mut String, options: &[Vec<u8>]) -> Result<(), AllocError> {
    let mut before = "{";
    for option in options {
        text.push_str(before)?;
        add_bytes(alloc, text, option)?;
        before = "|";
    }
    text.push_str("}")
}

/// Names, with spaces between them.
pub fn add_names(alloc: Global, text: &mut String, names: &[Name]) -> Result<(), AllocError> {
    if names.is_empty() {
        return text.push_str("none");
    }
    let mut before = "";
    for name in names {
        text.push_str(before)?;
        add_name(alloc, text, *name)?;
        before = " ";
    }
    Ok(())
}

fn add_name(alloc: Global, text: &mut String, name: Name) -> Result<(), AllocError> {
    let spelled = Spelled(name);
    let name = format!(in alloc; "{spelled}")?;
    text.push_str(name.as_str())
}
