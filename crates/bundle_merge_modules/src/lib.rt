//! The modules of a bundle while they become one: items by module, of whatever a module holds; the modules with their
//! items; and where the chains of aliases end that the linker made.
#![tactic(auto)]

mod alias;
mod chains;
mod ends;
pub mod inline;
pub mod iter;
pub mod modules;
mod part;
pub mod parts;
mod sort;

pub use modules::{Iter, Modules};
pub use parts::Parts;
