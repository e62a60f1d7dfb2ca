//! package.json: what a package says of itself, and which of its files its `exports` and `imports` name.
#![tactic(auto)]

mod browser;
mod entries;
mod keys;
mod lookup;
mod package;
mod patterns;
mod read;
mod segments;
mod target;

pub use browser::{BrowserMap, BrowserReplacement};
pub use entries::{EntryTable, LoaderConditions};
pub use lookup::{Located, TargetError, TargetFault};
pub use package::{Browser, Package, PackageError, PackageType};
