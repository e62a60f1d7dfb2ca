//! The command over any files, store, streams and clock: what is asked in, bundles out.
#![tactic(auto)]

mod command;
mod delivery;
mod entries;
mod error;
mod host;
mod making;
mod options;
mod progress;
mod report;
mod store;
mod views;

pub use command::run;
pub use error::RunError;
pub use host::{Host, Surroundings};
pub use store::{BundleStore, OutputFile};
