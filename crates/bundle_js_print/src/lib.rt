//! The list of a tree to JavaScript source text (ECMA-262, 13th edition).
//!
//! Parentheses stand only where the text would else be of another tree, and where the list has them. Each
//! statement stands on lines of its own, indented by two spaces, with its semicolon.
#![tactic(auto)]

mod around;
mod between;
mod closes;
mod context;
mod frame;
mod level;
mod print;
mod printer;
mod punctuation;
mod text;

pub use print::{Printed, print_pieces};
pub use printer::LeadingComment;
pub use text::Charset;
