//! What modules ask of each other and give each other: which modules an entry reaches and which requests which, what
//! the names of the modules of one bundle stand for, or the first fault of theirs.
#![tactic(auto)]

mod fault;
pub mod files;
pub mod judging;
pub mod link;
pub mod linked;
pub mod merging;
pub mod module;
pub mod reached;
pub mod tables;
mod target;
mod transformed;

pub use files::Files;
pub use judging::{DoubledNames, ModuleFault, judged};
pub use linked::LinkedModules;
pub use module::{NumberedModule, leads_of};
pub use reached::{Reached, reached_from};
