//! Why a specifier is not resolved.

use gutsirava_package::{PackageError, TargetError};
use gutsirava_path::AddressError;
use std::alloc::{AllocError, AllocFailed, Global};
use std::{fmt, io};

/// What is wrong with a specifier.
#[derive(Clone, Copy)]
pub enum SpecifierFault {
    /// It is empty, or has a NUL.
    Invalid,
    /// It names a file of another host.
    Host,
    /// No package.json with `imports` says what it is.
    NoImports,
    /// It names no package.
    PackageName,
    /// It begins with `node:`, and Node has no such module.
    UnknownBuiltin,
}

/// What is wrong with a file.
#[derive(Drop)]
pub enum PathFault {
    /// It is no package.json.
    Package(PackageError),
    /// Its `exports` or `imports` give nothing.
    Target(TargetError),
    /// The file system fails at it.
    System(io::Error),
}

/// Why a specifier is not resolved.
pub enum ResolutionError {
    /// No file is at any of the paths; of many, the first are told.
    NotFound {
        specifier: String,
        tried: Vec<String>,
    },
    /// `import` takes no folder where imports are not completed.
    Folder {
        specifier: String,
        path: String,
    },
    /// It names no path.
    Address {
        specifier: String,
        cause: AddressError,
    },
    Specifier {
        specifier: String,
        fault: SpecifierFault,
    },
    /// It is longer than 65,535 bytes.
    TooLong,
    File {
        path: String,
        fault: PathFault,
    },
    Memory(AllocError),
}

impl Drop for ResolutionError {
    fn drop(self) {
        match self {
            ResolutionError::NotFound {
                specifier: _specifier,
                tried: _tried,
            } => {}
            ResolutionError::Folder {
                specifier: _specifier,
                path: _path,
            } => {}
            ResolutionError::Address {
                specifier: _specifier,
                cause: _cause,
            } => {}
            ResolutionError::Specifier {
                specifier: _specifier,
                fault: _fault,
            } => {}
            ResolutionError::TooLong => {}
            ResolutionError::File {
                path: _path,
                fault: _fault,
            } => {}
            ResolutionError::Memory(_refused) => {}
        }
    }
}

impl ResolutionError {
    /// What is wrong with a specifier; where memory is refused for its text, that.
    pub(crate) fn of(alloc: Global, fault: SpecifierFault, specifier: &str) -> ResolutionError {
        match String::from_str(alloc, specifier) {
            Ok(specifier) => ResolutionError::Specifier { specifier, fault },
            Err(refused) => ResolutionError::Memory(refused),
        }
    }

    /// The specifier names this folder.
    pub(crate) fn folder(alloc: Global, specifier: &str, path: &str) -> ResolutionError {
        match (
            String::from_str(alloc, specifier),
            String::from_str(alloc, path),
        ) {
            (Ok(specifier), Ok(path)) => ResolutionError::Folder { specifier, path },
            _ => ResolutionError::Memory(AllocError),
        }
    }

    /// The specifier names no path.
    pub(crate) fn address(alloc: Global, specifier: &str, cause: AddressError) -> ResolutionError {
        if let AddressError::Memory(refused) = cause {
            return ResolutionError::Memory(refused);
        }
        match String::from_str(alloc, specifier) {
            Ok(specifier) => ResolutionError::Address { specifier, cause },
            Err(refused) => ResolutionError::Memory(refused),
        }
    }
}

impl SpecifierFault {
    /// What stands before the specifier in the sentence, and behind it.
    fn words(self) -> (&'static str, &'static str) {
        match self {
            SpecifierFault::Invalid => ("", " is no specifier: it is empty, or has a NUL"),
            SpecifierFault::Host => ("", " names a file of another host"),
            SpecifierFault::NoImports => ("no package.json with \"imports\" says what ", " is"),
            SpecifierFault::PackageName => ("", " names no package"),
            SpecifierFault::UnknownBuiltin => ("Node has no module ", ""),
        }
    }
}

/// Writes what is wrong with the file.
impl fmt::Display for PathFault {
    fn fmt<W: fmt::Write>(&self, f: &mut fmt::Formatter<W>) -> fmt::Result {
        match self {
            PathFault::Package(cause) => write!(f, "{cause}"),
            PathFault::Target(cause) => write!(f, "{cause}"),
            PathFault::System(cause) => write!(f, "{cause}"),
        }
    }
}

/// Writes why, in a sentence without a full stop.
impl fmt::Display for ResolutionError {
    fn fmt<W: fmt::Write>(&self, f: &mut fmt::Formatter<W>) -> fmt::Result {
        match self {
            ResolutionError::NotFound { specifier, .. } => {
                write!(f, "no file is found for {specifier:?}")
            }
            ResolutionError::Folder { specifier, path } => {
                write!(
                    f,
                    "{specifier:?} names the folder {path}, and `import` takes a file"
                )
            }
            ResolutionError::Address { specifier, cause } => {
                write!(f, "{specifier:?} names no path: it has {cause}")
            }
            ResolutionError::Specifier { specifier, fault } => {
                let (front, behind) = fault.words();
                write!(f, "{front}{specifier:?}{behind}")
            }
            ResolutionError::TooLong => write!(f, "a specifier is longer than 65,535 bytes"),
            ResolutionError::File { path, fault } => write!(f, "{path}: {fault}"),
            ResolutionError::Memory(_) => write!(f, "memory allocation failed"),
        }
    }
}

impl From<AllocError> for ResolutionError {
    fn from(refused: AllocError) -> ResolutionError {
        ResolutionError::Memory(refused)
    }
}

impl<T: Drop> From<AllocFailed<T>> for ResolutionError {
    fn from(refused: AllocFailed<T>) -> ResolutionError {
        ResolutionError::Memory(AllocError::from(refused))
    }
}
