//! The early errors of a regular expression literal (ECMA-262, 22.2.1 and B.1.2): its flags, and its pattern
//! with and without `u`.
#![tactic(auto)]

mod atoms;
mod classes;
mod fault;
mod flags;
mod groups;
mod pattern;
mod properties;
mod survey;

pub use fault::{RegexError, RegexRefusal};
pub use pattern::{check, check_literal};
