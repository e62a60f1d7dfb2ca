//! The marks of a tree and its occurrences; the tree with other identifiers, where what is short is spelled out as
//! a symbol changes; and what identifiers become in several steps, which is one renaming.
#![tactic(auto)]

pub mod items;
pub mod rename;
pub mod renaming;

pub use bundle_tree_places::Node;
pub use items::{Mark, Occurrence, marks, occurrences};
pub use rename::{rename_ids, with_idents};
pub use renaming::{Renaming, RenamingStep};
