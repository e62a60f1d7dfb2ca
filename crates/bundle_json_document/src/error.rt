//! Why a document could not be read.

use bundle_json_form::FormError;
use bundle_tree_parse::BuildError;
use std::alloc::{AllocError, AllocFailed};

/// Why a document could not be read.
#[derive(Clone, Copy, PartialEq, Eq, Debug)]
pub enum DocumentError {
    /// It is not of the form of a document.
    Form,
    /// A growth was refused.
    OutOfMemory,
}

impl From<AllocError> for DocumentError {
    ghost use Rattle.std.specs.Prelude.{◌≡◌};
    ghost use Rattle.bundle_json_document.specs.declared.error.DocumentError.TheVariants.{OutOfMemory};

    ghost from_gives = { λ _ refusal. refusal ≡ OutOfMemory };

    fn from(_refused: AllocError) -> DocumentError {
        DocumentError::OutOfMemory
    }
}

impl<T: Drop> From<AllocFailed<T>> for DocumentError {
    ghost use Rattle.std.specs.Prelude.{◌≡◌};
    ghost use Rattle.bundle_json_document.specs.declared.error.DocumentError.TheVariants.{OutOfMemory};

    ghost from_gives = { λ _ refusal. refusal ≡ OutOfMemory };

    fn from(_refused: AllocFailed<T>) -> DocumentError {
        DocumentError::OutOfMemory
    }
}

impl From<FormError> for DocumentError {
    ghost use Rattle.std.specs.Prelude.{◌≡◌};
    ghost use Rattle.bundle_json_document.specs.Error.{of_form};

    ghost from_gives = { λ error refusal. refusal ≡ of_form error };

    fn from(error: FormError) -> DocumentError {
        match error {
            FormError::Form => DocumentError::Form,
            FormError::OutOfMemory => DocumentError::OutOfMemory,
        }
    }
}

impl From<BuildError> for DocumentError {
    ghost use Rattle.std.specs.Prelude.{◌≡◌};
    ghost use Rattle.bundle_json_document.specs.Error.{of_list};

    ghost from_gives = { λ error refusal. refusal ≡ of_list error };

    fn from(error: BuildError) -> DocumentError {
        match error {
            BuildError::Form => DocumentError::Form,
            BuildError::OutOfMemory => DocumentError::OutOfMemory,
        }
    }
}
