//! The lexical grammar of ECMAScript 2022 in strict code (ECMA-262, 12): a text's tokens, one at a time, the
//! texts of tokens that hold escapes, the comments that a bundle keeps, and the line and column of a byte.
#![tactic(auto)]

pub mod byte;
pub mod escape;
pub mod fault;
pub mod gap;
pub mod lexer;
pub mod name;
mod number;
pub mod place;
mod scan;
mod scanned;
mod sign;
pub mod store;
mod string;
pub mod token;
mod word;
