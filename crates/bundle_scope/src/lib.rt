//! The scopes of a module, the names in it, and the module with other names: the calls on trees, over what is
//! found and decided in their lists.
#![tactic(auto)]

mod contexts;
pub mod finalize;
mod listing;
mod naming;
mod rename;
mod resolve;
pub mod scope;
mod words;
