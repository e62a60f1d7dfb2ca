//! The last steps of a bundle: no name is a keyword, and no two names clash.

pub use crate::naming::{KeywordRenamer, hygiene};
