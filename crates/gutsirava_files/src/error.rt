//! Why outputs are not written.

use std::alloc::{AllocError, AllocFailed, Global};
use std::{fmt, io};

/// Why outputs are not written. Paths are as they were asked for.
#[derive(Drop)]
pub enum OutputError {
    /// The output is an input, and would be overwritten.
    Input { path: String },
    /// Two outputs go there.
    Duplicate { path: String },
    /// A folder stands there.
    Folder { path: String },
    /// The file system fails there.
    Disk { path: String, cause: io::Error },
    /// Memory was refused.
    Memory(AllocError),
}

/// Writes why, in a sentence without a full stop.
impl fmt::Display for OutputError {
    fn fmt<W: fmt::Write>(&self, f: &mut fmt::Formatter<W>) -> fmt::Result {
        match self {
            OutputError::Input { path } => {
                put(f, path.as_str(), " is an input, and would be overwritten")
            }
            OutputError::Duplicate { path } => put(f, "two outputs go to ", path.as_str()),
            OutputError::Folder { path } => put(f, path.as_str(), " is a folder"),
            OutputError::Disk { path, cause } => write!(f, "{path}: {cause}"),
            OutputError::Memory(error) => write!(f, "{error}"),
        }
    }
}

// Writes two texts, one behind the other.
fn put<W: fmt::Write>(f: &mut fmt::Formatter<W>, first: &str, second: &str) -> fmt::Result {
    f.write_str(first)?;
    f.write_str(second)
}

impl From<AllocError> for OutputError {
    ghost use Rattle.std.specs.Prelude.{◌≡◌};
    ghost use Rattle.gutsirava_files.specs.declared.error.OutputError.TheVariants.{Memory};

    ghost from_gives = { λ cause error. error ≡ Memory cause };

    fn from(cause: AllocError) -> OutputError {
        OutputError::Memory(cause)
    }
}

impl<T: Drop> From<AllocFailed<T>> for OutputError {
    ghost use Rattle.std.specs.Prelude.{◌≡◌, alloc_error};
    ghost use Rattle.gutsirava_files.specs.declared.error.OutputError.TheVariants.{Memory};

    ghost from_gives = { λ _ error. error ≡ Memory alloc_error };

    fn from(refused: AllocFailed<T>) -> OutputError {
        OutputError::from(AllocError::from(refused))
    }
}

/// The file system fails at an output.
pub(crate) fn disk_error(alloc: Global, path: &str, cause: io::Error) -> OutputError {
    match String::from_str(alloc, path) {
        Ok(path) => OutputError::Disk { path, cause },
        Err(error) => OutputError::Memory(error),
    }
}
