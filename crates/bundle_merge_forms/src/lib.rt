//! What a linker adds to the statements of modules, by the names of bindings: each item has its form; and a module as
//! the call of one function.
#![tactic(auto)]

mod exports;
pub mod item;
mod statements;
mod wrap;

pub use wrap::wrap_with_iife;
