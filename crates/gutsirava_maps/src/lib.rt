//! Source maps, version 3 (ECMA-426): which place of a source each place of a generated text comes from.
#![tactic(auto)]

mod comment;
mod mappings;
mod names;
mod place;
mod text;
mod vlq;

pub use comment::{data_url, linked_comment};
pub use mappings::{MapOrigin, Mappings};
pub use names::NameList;
pub use place::{LineColumn, TextCursor};
pub use text::{MapSource, map_text};
