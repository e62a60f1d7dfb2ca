//! What each occurrence of a list denotes, in one table, and the first doubled declaration, each by itself or both
//! of one pass; and what tables of texts that strangers choose are made with: the salt of a list, and sets and maps
//! that are searched by order.
#![tactic(auto)]

pub mod denote;
pub mod doubled;
mod homes;
mod kinds;
pub mod mixed;
pub mod named;
pub mod salt;
pub mod table;
pub mod texts;
mod walk;

pub use denote::denotations;
pub use doubled::first_doubled;
pub use mixed::Mixed;
pub use named::{CheckedNames, names_and_doubled};
pub use salt::{Salt, salt_of};
pub use table::{Binding, Denotations, Denoted, Doubled, ModuleKind, Reading, Scope, ScopeKind};
