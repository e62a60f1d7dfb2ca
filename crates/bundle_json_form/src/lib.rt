//! The JSON form of a syntax tree, read into the tree's list of pieces and written from it.
//!
//! A node is an object with its name under `type` and every field under its key. A field that may hold
//! nothing is `null` there, or absent when read; an absent truth value is false, an absent list empty.
//! Keys that a node does not have are passed over, and so are `ctxt` and `meta`. What is written has every
//! field, `ctxt` where it is not 0, and no `meta`.
//!
//! Whether the pieces form a tree is not judged here: each node gives its own fields in its own order,
//! whatever stands in them.
#![tactic(auto)]

mod error;
mod layout;
mod node;
mod plan;
mod quoted;
mod read;
mod role;
mod scalar;
pub mod seen;
mod text;
mod write;

pub use error::FormError;
pub use quoted::push_quoted;
pub use read::{read_module, read_properties};
pub use text::{push_comma, push_tree};
pub use write::tree_value;
