//! Bytes as a row spells them: two hexadecimal digits each, of either case, with spaces anywhere.

use crate::fault::LineFault;

/// Adds the bytes that a text spells.
pub fn add_bytes(bytes: &mut Vec<u8>, text: &str) -> Result<(), LineFault> {
    let mut high = None;
    for letter in text.as_bytes() {
        if *letter == b' ' {
            continue;
        }
        let Some(digit) = digit_of(*letter) else {
            return Err(LineFault::NoBytes);
        };
        match high {
            None => high = Some(digit),
            Some(first) => {
                bytes.push((first << 4) | digit)?;
                high = None;
            }
        }
    }
    if high.is_some() {
        return Err(LineFault::NoBytes);
    }
    Ok(())
}

fn digit_of(letter: u8) -> Option<u8> {
    match letter {
        b'0'..=b'9' => Some(letter - b'0'),
        b'A'..=b'F' => Some(letter - b'A' + 10),
        b'a'..=b'f' => Some(letter - b'a' + 10),
        _ => None,
    }
}
