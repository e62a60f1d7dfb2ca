//! Linking, over tables and numbers: what the names of modules stand for, which modules are CommonJS, what
//! is meant, and what is wrong.
#![tactic(auto)]

mod faults;
pub mod linking;
mod lists;
mod meant;
mod names;
mod symbols;
mod taken;
pub mod target;

pub use linking::Linking;
pub use target::{
    External, FaultKind, LinkFault, LinkModule, Loaded, Meaning, ResolvedTo, Setting, TargetRef,
};
