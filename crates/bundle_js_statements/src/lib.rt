//! Statements, declarations of variables, imports and exports (ECMA-262, 14 and 16.2), a step at a time: each
//! function reads what its state says, and pushes the states of what follows.
#![tactic(auto)]

pub mod choice;
pub mod declaration;
pub mod export;
pub mod import;
pub mod iteration;
pub mod source;
pub mod statement;
