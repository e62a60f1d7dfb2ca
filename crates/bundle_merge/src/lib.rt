//! The modules of a linker, merged into its entry, from their items as they were resolved.
#![tactic(auto)]

mod joined;
mod prepared;
mod read;

pub use joined::merge_into_entry;
