//! What modules give for names, from their tables: names and targets by their numbers, and a search over the numbers
//! along entries and stars that stops at two.
#![tactic(auto)]

mod answer;
mod by_name;
pub mod index;
pub mod kinds;
mod line;
mod links;
mod numbers;
pub mod own;
mod search;
mod stars;
pub mod target;
mod walk;

pub use answer::Candidates;
pub use index::{Answer, Index};
pub use kinds::{Kinds, Lead};
pub use links::{Links, OwnLink};
pub use own::{Asked, GivenTarget, OwnTarget, locals_of, taking};
pub use search::Search;
pub use target::{LinkModule, Setting, TargetRef};
