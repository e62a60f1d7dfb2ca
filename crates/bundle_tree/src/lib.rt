//! What a linker works on: the syntax tree, the names and numbers of modules, the names of bindings,
//! and the three parties that it asks, the loader, the resolver and the hook.
#![tactic(auto)]

pub mod hook;
pub mod id;
pub mod load;
pub mod resolve;

pub use bundle_tree_ast as ast;
pub use bundle_tree_names::config::{Config, ModuleType};
pub use bundle_tree_names::error::Error;
pub use bundle_tree_names::file_name::FileName;
pub use bundle_tree_names::generator::ModuleIdGenerator;
pub use bundle_tree_names::module_id::ModuleId;
pub use bundle_tree_names::syntax_context::SyntaxContext;
pub use hook::{Hook, HookError, ModuleRecord};
pub use id::Id;
pub use load::{Load, LoadError, ModuleData};
pub use resolve::{Resolve, ResolveError};
