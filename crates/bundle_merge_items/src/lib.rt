//! One module of all modules of a bundle: their own statements, with every name what linking gives it, and what the
//! linker adds, in the order in which a bundle has them. Names are told apart by symbol and context.
//!
//! What comes in is each module with its items and its tables, and what the names of the modules are linked to
//! (`BundleInput`). First all names are given (`Names`), which alone may be refused for contexts; then each item is
//! made, block by block, over these names.
#![tactic(auto)]

mod merge;
mod module;
mod outside;

pub use bundle_merge_names::{
    Answered, BundleInput, BundleModule, FreshContexts, MergeError, local_context,
};
pub use merge::{MergedModule, merge_modules};
