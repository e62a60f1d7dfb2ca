//! Functions and classes (ECMA-262, 15), a step at a time: each function reads what its state says, and pushes the
//! states of what follows.
#![tactic(auto)]

pub mod class;
pub mod function;
