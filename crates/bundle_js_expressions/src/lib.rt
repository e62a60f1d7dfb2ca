//! Expressions (ECMA-262, 13 and 15.3), a step at a time: each function reads what its state says, and pushes
//! the states of what follows.
#![tactic(auto)]

pub mod arrow;
pub mod call;
pub mod literal;
pub mod number;
pub mod operand;
pub mod operator;
pub mod paren;
pub mod property;
