//! The text of a module to its list of records, by one loop over a stack of states: nests take memory, and no
//! stack.
#![tactic(auto)]

pub mod run;
pub mod step;

pub use run::{Parsed, parse};
