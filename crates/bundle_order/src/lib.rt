//! The order of modules and of statements: the graphs; what the items of a block depend on, where an item has a reference
//! to a name of the top that another declares or sets up, at once or when a function runs; and their sort.
#![tactic(auto)]

mod block;
mod dependency_graph;
pub mod depends;
mod group;
pub mod needs;
mod number;
pub(crate) mod numbers;
pub(crate) mod providers;
pub(crate) mod seconds;
pub(crate) mod seeing;
pub mod seen;
pub mod sort;
mod sorting;
pub(crate) mod spot;
pub(crate) mod told;
pub(crate) mod walk;

pub use block::{own_places, sorted_numbers, sorted_places};
pub use bundle_order_graph::graph;
pub use depends::{dependencies_among, references_among};
pub use needs::{ItemRange, dependencies, references};
pub use seen::Seen;
