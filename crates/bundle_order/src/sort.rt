//! Statements and what they depend on: the graph of these dependencies, and the order in which statements stand.

pub use crate::dependency_graph::calc_deps;
pub use crate::sorting::{in_own_order, sort_stmts};
pub use bundle_order_graph::sort::{EdgeDirection, Required, StmtDepGraph};
