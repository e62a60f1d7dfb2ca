//! Why a run ends without a status of its own.

use std::alloc::{AllocError, AllocFailed};
use std::io::ErrorKind;
use std::{error, fmt, io};

/// Why a run ends without a status of its own.
#[derive(Drop)]
pub enum RunError {
    /// The folder in which the command runs cannot be told.
    Folder(io::Error),
    /// The clock cannot be read.
    Clock(io::Error),
    /// The standard input cannot be read.
    Input(io::Error),
    /// The standard output cannot be written.
    Output(io::Error),
    /// Memory was refused.
    Memory(AllocError),
}

/// Writes why, in a sentence without a full stop.
impl fmt::Display for RunError {
    fn fmt<W: fmt::Write>(&self, f: &mut fmt::Formatter<W>) -> fmt::Result {
        match self {
            RunError::Folder(cause) => {
                tell(
                    f,
                    "the folder in which the command runs cannot be told",
                    cause,
                )
            }
            RunError::Clock(cause) => tell(f, "the clock cannot be read", cause),
            RunError::Input(cause) => tell(f, "the standard input cannot be read", cause),
            RunError::Output(cause) => tell(f, "the standard output cannot be written", cause),
            RunError::Memory(error) => write!(f, "{error}"),
        }
    }
}

// Writes what cannot be done, and why.
fn tell<W: fmt::Write>(f: &mut fmt::Formatter<W>, what: &str, cause: &io::Error) -> fmt::Result {
    write!(f, "{what}: {cause}")
}

/// Writes the same.
impl fmt::Debug for RunError {
    fn fmt<W: fmt::Write>(&self, f: &mut fmt::Formatter<W>) -> fmt::Result {
        fmt::Display::fmt(self, f)
    }
}

impl error::Error for RunError {}

impl From<AllocError> for RunError {
    ghost use Rattle.std.specs.Prelude.{◌≡◌};
    ghost use Rattle.gutsirava_run.specs.declared.error.RunError.TheVariants.{Memory};

    ghost from_gives = { λ cause error. error ≡ Memory cause };

    fn from(cause: AllocError) -> RunError {
        RunError::Memory(cause)
    }
}

impl<T: Drop> From<AllocFailed<T>> for RunError {
    ghost use Rattle.std.specs.Prelude.{◌≡◌, alloc_error};
    ghost use Rattle.gutsirava_run.specs.declared.error.RunError.TheVariants.{Memory};

    ghost from_gives = { λ _ error. error ≡ Memory alloc_error };

    fn from(refused: AllocFailed<T>) -> RunError {
        RunError::from(AllocError::from(refused))
    }
}

impl RunError {
    /// The standard input fails, or memory is refused for what it gives.
    pub(crate) fn of_input(cause: io::Error) -> RunError {
        if cause.kind() == ErrorKind::OutOfMemory {
            RunError::Memory(AllocError)
        } else {
            RunError::Input(cause)
        }
    }
}
