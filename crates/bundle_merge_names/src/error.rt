//! Why modules are not merged.

use std::alloc::{AllocError, AllocFailed};

/// Why there is no list for a bundle.
#[derive(Clone, Copy, PartialEq, Eq, Debug)]
pub enum MergeError {
    /// The next context would be above 4294967295. `module` is the number of the module whose names get it; there
    /// is none where the linker's own names do.
    ContextsUsedUp { which: Option<usize> },
    /// A growth was refused.
    OutOfMemory,
}

impl From<AllocError> for MergeError {
    ghost use Rattle.std.specs.Prelude.{◌≡◌};
    ghost use Rattle.bundle_merge_names.specs.declared.error.MergeError.TheVariants.{OutOfMemory};

    ghost from_gives = { λ _ refusal. refusal ≡ OutOfMemory };

    fn from(_refused: AllocError) -> MergeError {
        MergeError::OutOfMemory
    }
}

impl<T: Drop> From<AllocFailed<T>> for MergeError {
    ghost use Rattle.std.specs.Prelude.{◌≡◌};
    ghost use Rattle.bundle_merge_names.specs.declared.error.MergeError.TheVariants.{OutOfMemory};

    ghost from_gives = { λ _ refusal. refusal ≡ OutOfMemory };

    fn from(_refused: AllocFailed<T>) -> MergeError {
        MergeError::OutOfMemory
    }
}
