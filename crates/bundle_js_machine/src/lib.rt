//! The machine that reads a text: a reader, the stack of what is still to be read, and what the functions
//! around the token allow.
#![tactic(auto)]

pub mod context;
pub mod machine;
pub mod state;
