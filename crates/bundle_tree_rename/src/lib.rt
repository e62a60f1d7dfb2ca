//! A syntax tree whose identifiers are changed where they stand. What is short is spelled out where a symbol
//! changes, so that keys and exported names stay.
#![tactic(auto)]

pub mod new_name;
pub mod rename;

pub use new_name::NewName;
pub use rename::Rename;
