//! The names of a bundle: a context for each scope of its modules that binds something, an identifier for each label,
//! and what becomes of each name of a module. What comes in is each module with its items and its tables, and what the
//! names of the modules are linked to (`BundleInput`).
#![tactic(auto)]

pub mod body;
pub mod context;
pub mod error;
pub mod given;
pub mod names;
pub mod part;

pub use body::{Body, body_of, own_names};
pub use context::{FreshContexts, local_context};
pub use error::MergeError;
pub use given::names_of;
pub use names::{BundleNames, Label};
pub use part::{Answered, BundleInput, BundleModule};
