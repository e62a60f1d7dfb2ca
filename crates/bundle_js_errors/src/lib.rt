//! The early errors that only a whole text shows (ECMA-262, 13 to 16): labels and what leaves or goes on with
//! what, names of parameters, private names, `__proto__` and constructors that stand twice, patterns of
//! regular expressions. Names that are declared or exported twice are the linker's.
#![tactic(auto)]

mod checker;
mod error;
mod frame;
mod labels;
mod members;
mod numbers;
mod params;
mod privates;

pub use checker::check;
pub use error::{Early, EarlyError};
