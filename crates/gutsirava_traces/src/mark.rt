//! What a map is to tell of a place.

use gutsirava_maps::MapOrigin;

/// A byte of the list's text, with where it comes from.
#[derive(Clone, Copy)]
pub(crate) struct MapMark {
    pub(crate) offset: u32,
    pub(crate) origin: Option<MapOrigin>,
}
