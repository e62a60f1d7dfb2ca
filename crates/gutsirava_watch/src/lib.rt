//! Work that is done again when a file changes that it looked at.
#![tactic(auto)]

mod noted;
mod stamp;
mod watching;

pub use noted::NotedFiles;
pub use stamp::{MachineView, PathStamp, PathStamps};
pub use watching::{WatchedWork, watch};
