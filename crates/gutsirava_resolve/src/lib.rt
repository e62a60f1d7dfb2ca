//! Which file a specifier names, as Node and bundlers resolve it.
#![tactic(auto)]

mod browser;
mod error;
mod externals;
mod files;
mod format;
mod known;
mod packages;
mod resolver;
mod search;
mod settings;
mod tree;

pub use error::{PathFault, ResolutionError, SpecifierFault};
pub use externals::Externals;
pub use files::{FileSystem, PathKind};
pub use format::FileFormat;
pub use resolver::{ResolveRequest, Resolved, Resolver};
pub use settings::{MainField, Settings, TargetPlatform};
