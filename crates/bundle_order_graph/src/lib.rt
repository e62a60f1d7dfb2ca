//! Graphs: which module reaches which, in what order modules are listed, which of them form
//! blocks, and exact reachability between statements.
#![tactic(auto)]

pub mod classes;
pub mod graph;
pub(crate) mod rows;
pub mod sort;
