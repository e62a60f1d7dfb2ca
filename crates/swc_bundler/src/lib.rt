//! The linker as its users see it: every public item at its path, and at the root too what the original has there.
//! What each does is said where it is defined; nothing is defined here.
#![tactic(auto)]

pub use bundle_link::{link, tables};
pub use bundle_merge_modules::{inline, modules};
pub use bundle_order::{graph, sort};
pub use bundle_scope::scope;
pub use bundle_tree::{Hook, Load, ModuleData, ModuleRecord, Resolve, hook, resolve};
pub use bundle_tree_ast as ast;
pub use bundle_tree_list::is_same;
pub use bundle_tree_names::{Config, Error, ModuleId, ModuleType};
pub use bundle_tree_rewrite::TryClone;
pub use bundler_call::{Bundle, BundleKind, Bundler};

/// Contexts, the names of bindings, and the numbers of modules.
pub mod id {
    pub use bundle_tree::Id;
    pub use bundle_tree_names::{ModuleId, ModuleIdGenerator, SyntaxContext};
}

/// Files, and who gives their modules.
pub mod load {
    pub use bundle_tree::{Load, LoadError, ModuleData};
    pub use bundle_tree_names::FileName;
}

/// The marks of a tree, where each node begins and ends, and the tree with other identifiers.
pub mod marks {
    pub use bundle_marks::{
        Mark, Node, Occurrence, Renaming, RenamingStep, marks, occurrences, rename_ids, with_idents,
    };
    pub use bundle_syntax::Node as NamedNode;
}

/// Trees as JSON text: how one is read and how one is written.
pub mod form {
    pub use bundle_json_text::{FormError, module_from_text, module_text};
}

/// The last steps to a bundle: no keyword and no clash of names.
pub mod finalize {
    pub use bundle_merge_forms::wrap_with_iife;
    pub use bundle_scope::finalize::{KeywordRenamer, hygiene};
}

/// What CommonJS modules stand in: the helper, and the function of each.
pub mod cjs {
    pub use bundle_merge_forms::item::{helper_item, wrap_cjs_module};
}

/// The object of a namespace.
pub mod namespace {
    pub use bundle_merge_forms::item::namespace_object;
}

/// The modules of a bundle, merged into its entry.
pub mod merge {
    pub use bundle_merge::merge_into_entry;
}

/// The bundler, its settings and what it gives.
pub mod bundler {
    pub use bundle_tree_names::{Config, ModuleType};
    pub use bundler_call::{Bundle, BundleCauses, BundleKind, Bundler, ItemCause, OrderedConfig};
}
