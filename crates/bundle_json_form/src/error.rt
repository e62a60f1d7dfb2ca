//! Why a value could not be read.

use std::alloc::{AllocError, AllocFailed};
use std::fmt;

/// Why a value could not be read as a tree.
#[derive(Clone, Copy, PartialEq, Eq, Debug)]
pub enum FormError {
    /// It is not of the form of a tree.
    Form,
    /// A growth was refused.
    OutOfMemory,
}

/// Writes why.
impl fmt::Display for FormError {
    ghost use Rattle.std.specs.Prelude.{Some};
    ghost use Rattle.bundle_json_form.specs.Error.{form_error_shown};

    ghost output = { λ refusal. Some (form_error_shown refusal) };

    fn fmt<W: fmt::Write>(&self, f: &mut fmt::Formatter<W>) -> fmt::Result {
        let reason = match self {
            FormError::Form => "not the form of a tree",
            FormError::OutOfMemory => "out of memory",
        };
        write!(f, "{reason}")
    }
}

impl std::error::Error for FormError {}

impl From<AllocError> for FormError {
    ghost use Rattle.std.specs.Prelude.{◌≡◌};
    ghost use Rattle.bundle_json_form.specs.declared.error.FormError.TheVariants.{OutOfMemory};

    ghost from_gives = { λ _ refusal. refusal ≡ OutOfMemory };

    fn from(_refused: AllocError) -> FormError {
        FormError::OutOfMemory
    }
}

impl<T: Drop> From<AllocFailed<T>> for FormError {
    ghost use Rattle.std.specs.Prelude.{◌≡◌};
    ghost use Rattle.bundle_json_form.specs.declared.error.FormError.TheVariants.{OutOfMemory};

    ghost from_gives = { λ _ refusal. refusal ≡ OutOfMemory };

    fn from(_refused: AllocFailed<T>) -> FormError {
        FormError::OutOfMemory
    }
}
