//! What makes trees of modules.

use bundle_syntax::Piece;
use std::alloc::AllocError;

/// Makes trees of modules, and keeps them by the numbers of the modules.
pub trait TreeMaker {
    /// Makes the tree of the module of this number, whose list this is; whether it is that of a module. Refused only for
    /// memory.
    fn make(&mut self, unit: usize, pieces: &[Piece<'_>]) -> Result<bool, AllocError>;
}
