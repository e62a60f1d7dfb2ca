//! The list of a syntax tree made anew, with other identifiers at its occurrences. What is short is spelled out where
//! a change asks for it, so that keys and exported names stay.
#![tactic(auto)]

mod ahead;
pub mod kind;
pub mod rebuilder;
pub mod rewrite;
mod work;

pub use rebuilder::{Rebuilder, changed_pieces, no_notes};
pub use rewrite::{Rewrite, Rewriting, Whole};
