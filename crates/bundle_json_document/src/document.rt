//! What a document asks for.

use bundle_tree_ast::Module;
use bundle_tree_names::file_name::FileName;
use bundler_call::OrderedConfig;
use std::collections::BTreeMap;

/// What a document asks for.
#[derive(Drop)]
pub struct Document {
    /// The settings, and the order of modules.
    pub config: OrderedConfig,
    /// The modules, by the names of their files.
    pub files: BTreeMap<String, Module>,
    /// The entries in their order, each a name and a file.
    pub entries: Vec<(String, FileName)>,
}
