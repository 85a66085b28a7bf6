//! Whether a printed line is what pieces say.

use crate::piece::Piece;
use std::alloc::{AllocError, Global};

/// Whether the pieces, one of the texts of each, stand one after the other in the text and fill it.
pub fn fits(alloc: Global, pieces: &[Piece], text: &[u8]) -> Result<bool, AllocError> {
    let mut places = Vec::new(alloc);
    places.push(0)?;
    for piece in pieces {
        places = places_behind(alloc, piece, text, &places)?;
    }
    Ok(places.contains(&text.len()))
}

/// Where a piece may end that begins at one of these places.
fn places_behind(
    alloc: Global,
    piece: &Piece,
    text: &[u8],
    places: &[usize],
) -> Result<Vec<usize>, AllocError> {
    let mut behind = Vec::new(alloc);
    for place in places {
        add_places(&mut behind, piece, text, *place)?;
    }
    Ok(behind)
}

fn add_places(
    behind: &mut Vec<usize>,
    piece: &Piece,
    text: &[u8],
    place: usize,
) -> Result<(), AllocError> {
    let Some((_, rest)) = text.split_at_checked(place) else {
        return Ok(());
    };
    for option in &piece.options {
        let end = place.saturating_add(option.len());
        if rest.starts_with(option) && !behind.contains(&end) {
            behind.push(end)?;
        }
    }
    Ok(())
}
