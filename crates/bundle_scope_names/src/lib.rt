//! Which contexts tell the bindings of a tree apart, and which symbols they get: none has a reserved word's symbol,
//! and each name denotes by its symbol alone what it denoted by symbol and context. Proved besides: the naming rule keeps
//! what names denote and lets nothing be declared twice, and the names that the code gives are those of the rule.
#![tactic(auto)]

pub mod contexts;
pub mod hygiene;
pub mod keywords;
pub mod names;
pub mod rename;
pub(crate) mod uses;
pub(crate) mod words;

pub use contexts::{ContextsGiven, contexts_of};
pub use hygiene::hygienic_names;
pub use keywords::keyword_names;
pub use names::{ContextRule, Names};
pub use rename::changes_of;
