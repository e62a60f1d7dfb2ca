//! Where nodes end.

ghost use Rattle.std.specs.Prelude.{◌≤◌};

use bundle_syntax::Piece;
use std::alloc::{AllocError, Global};

/// Where each node of a list ends.
#[derive(Drop)]
pub struct Closes {
    // For each piece that opens a node the place of the one that closes it, for each other its own.
    places: Vec<u32>,
}

impl Closes {
    /// Where the nodes of these pieces end. A node that none closes ends where it begins.
    pub fn of(alloc: Global, pieces: &[Piece]) -> Result<Closes, AllocError> {
        let mut places = Vec::with_capacity(alloc, pieces.len())?;
        let mut opened: Vec<u32> = Vec::new(alloc);
        for (place, piece) in pieces.iter().enumerate() {
            let place = number_of(place);
            places.push(place)?;
            match piece {
                Piece::Open { .. } => opened.push(place)?,
                Piece::Close => if let Some(begin) = opened.pop() {
                    close(places.as_mut_slice(), begin, place);
                },
                _ => {}
            }
        }
        Ok(Closes { places })
    }

    /// Where the node that begins at this place ends.
    pub fn end_of(&self, place: usize) -> usize {
        match self.places.get(place) {
            Some(end) => *end as usize,
            None => place,
        }
    }
}

fn close(places: &mut [u32], begin: u32, end: u32) {
    if let Some(place) = places.get_mut(begin as usize) {
        *place = end;
    }
}

/// A place of a list as a number of 32 bits.
pub fn number_of(place: usize) -> u32
    ensures { result ≤ place }
{
    u32::try_from(place).unwrap_or(u32::MAX)
}
