//! Where what stands in a bundle comes from: the list of a module, as it was handed to the linker, and the list of a
//! bundle are gone over side by side.
#![tactic(auto)]

mod ends;
mod maker;
mod mark;
mod name;
mod shape;
mod source;
mod trace;
mod walk;

pub use maker::{MapMaker, PrintedList};
pub use source::SourceFile;
pub use trace::{NOWHERE, SourceTrace};
