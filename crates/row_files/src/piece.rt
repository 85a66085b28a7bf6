//! The text of a line of a script or of the output, with what stands in braces: `{32768*a}` for so many letters, `{1|2}`
//! for either text, `{i}` for a turn's number, and `{{` for a brace.

use crate::fault::LineFault;
use std::alloc::{AllocError, Global};

/// Of a letter as many as this may stand in braces, 2^26. A script is refused from 2^24 bytes on.
const MOST_LETTERS: usize = 0x400_0000;

/// A part of a line: one of these texts.
#[derive(Drop)]
pub struct Piece {
    pub options: Vec<Vec<u8>>,
}

impl Piece {
    fn one(alloc: Global, bytes: Vec<u8>) -> Result<Piece, AllocError> {
        let mut options = Vec::new(alloc);
        options.push(bytes)?;
        Ok(Piece { options })
    }

    fn plain(alloc: Global, text: &str) -> Result<Piece, AllocError> {
        let bytes = text.as_bytes().to_vec(alloc)?;
        Piece::one(alloc, bytes)
    }
}

/// What stands before the next part of a text that is cut at each opening brace.
#[derive(Clone, Copy)]
enum Before {
    Nothing,
    Brace,
    TwoBraces,
}

#[derive(Drop)]
struct PieceReader {
    alloc: Global,
    turn: Option<u64>,
    before: Before,
    pieces: Vec<Piece>,
}

impl PieceReader {
    fn take_all(&mut self, text: &str) -> Result<(), LineFault> {
        for part in text.split('{') {
            self.take(part)?;
        }
        match self.before {
            Before::TwoBraces => Err(LineFault::OpenBrace),
            Before::Nothing | Before::Brace => Ok(()),
        }
    }

    fn take(&mut self, part: &str) -> Result<(), LineFault> {
        match self.before {
            Before::Nothing => {
                self.before = Before::Brace;
                self.plain(part)
            }
            Before::TwoBraces => {
                self.before = Before::Brace;
                self.plain("{")?;
                self.plain(part)
            }
            Before::Brace if part.is_empty() => {
                self.before = Before::TwoBraces;
                Ok(())
            }
            Before::Brace => self.braces(part),
        }
    }

    fn plain(&mut self, text: &str) -> Result<(), LineFault> {
        if text.is_empty() {
            return Ok(());
        }
        let piece = Piece::plain(self.alloc, text)?;
        self.pieces.push(piece)?;
        Ok(())
    }

    /// What begins within braces.
    fn braces(&mut self, part: &str) -> Result<(), LineFault> {
        let Some((inside, rest)) = part.split_once('}') else {
            return Err(LineFault::OpenBrace);
        };
        let piece = self.piece(inside)?;
        self.pieces.push(piece)?;
        self.plain(rest)
    }

    fn piece(&mut self, inside: &str) -> Result<Piece, LineFault> {
        if inside == "i" {
            let Some(turn) = self.turn else {
                return Err(LineFault::NoTurn);
            };
            let digits = format!(in self.alloc; "{turn}")?;
            return Ok(Piece::one(self.alloc, digits.into_bytes())?);
        }
        if let Some((count, letter)) = inside.split_once('*') {
            return letters(self.alloc, count, letter);
        }
        either(self.alloc, inside)
    }
}

/// So many times one letter.
fn letters(alloc: Global, count: &str, letter: &str) -> Result<Piece, LineFault> {
    let Ok(count) = count.parse::<usize>() else {
        return Err(LineFault::Braces);
    };
    match letter.as_bytes() {
        [byte] if count <= MOST_LETTERS => {
            let bytes = vec![in alloc; *byte; count]?;
            Ok(Piece::one(alloc, bytes)?)
        }
        _ => Err(LineFault::Braces),
    }
}

/// One of two texts or more.
fn either(alloc: Global, inside: &str) -> Result<Piece, LineFault> {
    let mut options = Vec::new(alloc);
    for option in inside.split('|') {
        options.push(option.as_bytes().to_vec(alloc)?)?;
    }
    if options.len() < 2 {
        return Err(LineFault::Braces);
    }
    Ok(Piece { options })
}

/// The pieces of a line's text, in the turn of this number where the line is repeated.
pub fn read_pieces(alloc: Global, text: &str, turn: Option<u64>) -> Result<Vec<Piece>, LineFault> {
    let mut reader = PieceReader {
        alloc,
        turn,
        before: Before::Nothing,
        pieces: Vec::new(alloc),
    };
    reader.take_all(text)?;
    let PieceReader { pieces, .. } = reader;
    Ok(pieces)
}

/// Adds a line to a script.
pub fn add_script(
    alloc: Global,
    script: &mut Vec<u8>,
    text: &str,
    is_ended: bool,
    turn: Option<u64>,
) -> Result<(), LineFault> {
    let pieces = read_pieces(alloc, text, turn)?;
    add_texts(script, &pieces)?;
    if is_ended {
        script.push(b'\n')?;
    }
    Ok(())
}

/// Adds the text of these pieces, which have one text each.
fn add_texts(script: &mut Vec<u8>, pieces: &[Piece]) -> Result<(), LineFault> {
    for piece in pieces {
        match piece.options.as_slice() {
            [bytes] => script.extend_from_slice(bytes)?,
            _ => return Err(LineFault::EitherInScript),
        }
    }
    Ok(())
}
