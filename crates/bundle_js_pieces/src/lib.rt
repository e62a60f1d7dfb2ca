//! From the records of a text to the list of its tree: each node around what lies in it, with its texts
//! borrowed from the source and the store, and beside each piece its place in the source.
#![tactic(auto)]

mod node;
mod placed;
mod role;
mod texts;

pub use placed::{Placed, pieces};
pub use texts::{PieceError, RecordTexts};
