//! A linker of ECMAScript modules: it loads the modules that an entry needs, each once, and makes one module of them.
//! What it keeps from one bundle to the next, the numbers of files, their trees and where their requests lead, is never
//! changed and never forgotten.
#![tactic(auto)]

pub mod bundle;
pub mod bundler;
mod caused;
pub mod kept;
mod library;
mod linked;
mod listed;
mod load;
mod marked;
mod places;
mod program;
mod texts;

pub use bundle::{Bundle, BundleKind};
pub use bundle_merge_causes::{BundleCauses, ItemCause, is_stated};
pub use bundler::Bundler;
pub use bundler_entry::OrderedConfig;
pub use kept::{Kept, Request};
