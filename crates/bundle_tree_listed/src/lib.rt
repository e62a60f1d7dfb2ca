//! What the full list of a syntax tree is: where each node begins and ends, with every value that
//! stands in it, and each identifier with its role. Every field of the tree stands in the list. The
//! definitions alone: `bundle_tree_list` makes the list, and `bundle_tree_rebuild` makes trees that have one.
#![tactic(auto)]

pub use bundle_syntax::{Node, Piece, Role};
