//! What a linker gives.

use bundle_tree_ast::Module;
use bundle_tree_names::ModuleId;

/// What a bundle is made for, in the order of its sorts, and of one sort by name.
#[derive(Clone, PartialEq, Eq, PartialOrd, Ord, Hash, Debug, Drop)]
pub enum BundleKind {
    /// An entry, under the name that it was asked for.
    Named { name: String },
    /// A module that is loaded by a call of `import`.
    Dynamic,
    /// A module that several bundles share.
    Lib { name: String },
}

/// A module that stands for all modules that its entry needs.
#[derive(Debug, Drop)]
pub struct Bundle {
    /// What it is made for.
    pub kind: BundleKind,
    /// The number of the entry's file.
    pub id: ModuleId,
    /// The module.
    pub module: Module,
}
