//! What stands where in the list of a tree: marks and occurrences, nodes side by side, what is in a field, reads
//! around a place, and whether a module awaits where only an async function or the top of a module may.
#![tactic(auto)]

pub mod awaits;
pub mod change;
pub mod identifier;
pub mod mark;
pub mod nodes;
pub mod parts;
pub mod places;
pub mod rare;
pub mod seconds;

pub use awaits::awaits_outside;
pub use change::Change;
pub use identifier::is_ascii_identifier;
pub use mark::{MarkRef, Name, Node, OccurrenceRef, marks_of, occurrences_of};
