//! What the names of a module denote, and the module with other identifiers.

pub use crate::contexts::Contexts;
pub use crate::rename::{rename_all, rename_item};
pub use crate::resolve::resolve_scopes;
pub use bundle_marks::{Occurrence, Renaming, occurrences, rename_ids};
pub use bundle_scope_denote::ModuleKind;
