//! What numbers and names there are: modules and their files, contexts, refusals, settings.
#![tactic(auto)]

pub mod config;
pub mod error;
pub mod file_name;
pub mod generator;
pub mod module_id;
pub mod syntax_context;

pub use config::{Config, ModuleType};
pub use error::Error;
pub use file_name::FileName;
pub use generator::ModuleIdGenerator;
pub use module_id::ModuleId;
pub use syntax_context::SyntaxContext;
