//! The refusals that are no answer of the loader or the resolver.

use bundle_tree_names::error::Error;
use bundle_tree_names::file_name::FileName;
use std::alloc::{AllocError, AllocFailed};

/// Why modules that were loaded, none of which is at fault by itself, make no bundle: a fault of one in the bundle, between
/// them or in what the hook answers, or a growth was refused.
#[derive(Debug, Drop)]
pub enum EntryError {
    /// A growth was refused.
    OutOfMemory,
    /// The hook failed.
    Hook { file: FileName },
    /// The next context would be above 4294967295.
    ContextsUsedUp { file: FileName },
    /// A name is declared twice.
    DoubledDeclaration { file: FileName, name: String },
    /// A name is asked for that is not given,
    MissingExport { file: FileName, name: String },
    /// that is given more than once,
    AmbiguousExport { file: FileName, name: String },
    /// or that an external may hold.
    ExternalStarOnly { file: FileName, name: String },
    /// A CommonJS module is starred.
    StarOfCommonJs { file: FileName, specifier: String },
    /// A namespace object is needed whose names are not known.
    NamespaceOverExternalStar { file: FileName },
    /// A `with` statement.
    With { file: FileName },
    /// A literal call of `require` is of an ES module,
    RequiredEsModule { file: FileName, specifier: String },
    /// or of the entry.
    RequiredEntry { file: FileName, specifier: String },
    /// An `await` outside functions in a CommonJS module.
    AwaitInCommonJs { file: FileName },
    /// An external import where the bundle is one function's call.
    ExternalUnderIife { file: FileName, specifier: String },
    /// A free `arguments` where it is.
    ArgumentsUnderIife { file: FileName },
}

impl From<AllocError> for EntryError {
    ghost use Rattle.std.specs.Prelude.{◌≡◌};
    ghost use Rattle.bundler_entry.specs.declared.unlinked.EntryError.TheVariants.{OutOfMemory};

    ghost from_gives = { λ _ refusal. refusal ≡ OutOfMemory };

    fn from(_refused: AllocError) -> EntryError {
        EntryError::OutOfMemory
    }
}

impl<T: Drop> From<AllocFailed<T>> for EntryError {
    ghost use Rattle.std.specs.Prelude.{◌≡◌};
    ghost use Rattle.bundler_entry.specs.declared.unlinked.EntryError.TheVariants.{OutOfMemory};

    ghost from_gives = { λ _ refusal. refusal ≡ OutOfMemory };

    fn from(_refused: AllocFailed<T>) -> EntryError {
        EntryError::OutOfMemory
    }
}

impl From<EntryError> for Error {
    ghost use Rattle.std.specs.Prelude.{◌≡◌};
    ghost use Rattle.bundler_entry.specs.Unlinked.{error_of};

    ghost from_gives = { λ unlinked refusal. refusal ≡ error_of unlinked };

    fn from(unlinked: EntryError) -> Error {
        match unlinked {
            EntryError::OutOfMemory => Error::OutOfMemory,
            EntryError::Hook { file } => Error::Hook { file },
            EntryError::ContextsUsedUp { file } => Error::ContextsUsedUp { file },
            EntryError::DoubledDeclaration { file, name } => Error::DoubledDeclaration {
                file,
                name,
            },
            EntryError::MissingExport { file, name } => Error::MissingExport { file, name },
            EntryError::AmbiguousExport { file, name } => Error::AmbiguousExport { file, name },
            EntryError::ExternalStarOnly { file, name } => Error::ExternalStarOnly { file, name },
            EntryError::StarOfCommonJs { file, specifier } => Error::StarOfCommonJs {
                file,
                specifier,
            },
            EntryError::NamespaceOverExternalStar { file } => Error::NamespaceOverExternalStar {
                file,
            },
            EntryError::With { file } => Error::With { file },
            EntryError::RequiredEsModule { file, specifier } => Error::RequiredEsModule {
                file,
                specifier,
            },
            EntryError::RequiredEntry { file, specifier } => Error::RequiredEntry {
                file,
                specifier,
            },
            EntryError::AwaitInCommonJs { file } => Error::AwaitInCommonJs { file },
            EntryError::ExternalUnderIife { file, specifier } => Error::ExternalUnderIife {
                file,
                specifier,
            },
            EntryError::ArgumentsUnderIife { file } => Error::ArgumentsUnderIife { file },
        }
    }
}
