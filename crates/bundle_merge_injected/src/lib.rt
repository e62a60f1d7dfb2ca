//! What a linker adds to the statements of modules: each form, with the names that it is handed, as a list of pieces
//! (`list`) and as a tree.
#![tactic(auto)]

mod call;
mod common_js;
mod declaration;
mod function;
mod import;
pub mod list;
mod name;
mod object;
mod row;

pub use call::function_call;
pub use common_js::{HelperNames, LoadNames, helper, load_function, load_statement};
pub use declaration::constant;
pub use import::{export_list, export_star, import_bare, import_names, import_whole};
pub use name::Pair;
pub use object::namespace_object;
