//! Sets and maps whose keys hold texts that strangers choose.
mod map;
mod set;

pub use map::TextMap;
pub use set::TextSet;
