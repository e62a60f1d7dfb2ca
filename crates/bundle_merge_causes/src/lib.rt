//! What each item of a bundle is made for, item by item, where modules stand in the order in which ECMA-262 evaluates
//! them (16.2.1.5.2: post-order of requests): from what linking decided, with no second merge.
#![tactic(auto)]

mod cause;
mod causes;
mod front;
mod module;
mod shape;

pub use cause::{BundleCauses, ItemCause};
pub use causes::causes_of;
pub use shape::{ModuleShape, is_stated, statement_count};
