//! The refusals of a bundle.

ghost use Rattle.std.specs.Prelude.{◌≡◌};
ghost use Rattle.bundle_tree_names.specs.Error.{number_of, variant_name};

use crate::FileName;
use std::alloc::{AllocError, AllocFailed};
use std::{error, fmt};

/// Why there is no bundle.
#[derive(Debug, Drop, PartialEq, Eq)]
pub enum Error {
    /// The loader failed to give the text of `file`.
    Load { file: FileName },
    /// The resolver failed on `specifier`, as `file` writes it.
    Resolve { file: FileName, specifier: String },
    /// The hook failed on `file`.
    Hook { file: FileName },
    /// As many modules are kept as the settings allow, and `file` is not among them.
    TooManyModules { file: FileName },
    /// The next context, one of the module in `file`, would be above 4294967295.
    ContextsUsedUp { file: FileName },
    /// `file` declares `name` twice where that is an error (ECMA-262, 16.2.1.1, for the top of a module).
    DoubledDeclaration { file: FileName, name: String },
    /// `file` has two export entries of one `name` (ECMA-262, 16.2.1.1).
    DoubledExport { file: FileName, name: String },
    /// `file` exports a `name` of its own that its top does not bind (ECMA-262, 16.2.1.1).
    UndeclaredExport { file: FileName, name: String },
    /// `file` imports or re-exports `name`, which has no target (ECMA-262, ResolveExport of source text
    /// module records).
    MissingExport { file: FileName, name: String },
    /// `file` imports or re-exports `name`, which has two targets (ECMA-262, ResolveExport of source
    /// text module records).
    AmbiguousExport { file: FileName, name: String },
    /// `file` imports or re-exports `name`, which has no target and is not `default`, where an `export *`
    /// of an external module may hold it.
    ExternalStarOnly { file: FileName, name: String },
    /// `file` has an `export *` without a name of `specifier`, a CommonJS module, whose exports have no
    /// names before it runs.
    StarOfCommonJs { file: FileName, specifier: String },
    /// A namespace object of `file` is needed, which has an `export *` of an external module, so that
    /// its names are not known (ECMA-262, 10.4.6).
    NamespaceOverExternalStar { file: FileName },
    /// `file` has a `with` statement (ECMA-262, 14.11).
    With { file: FileName },
    /// `file` has a `require` of the literal `specifier`, a module with a module declaration or
    /// `import.meta`.
    RequiredEsModule { file: FileName, specifier: String },
    /// `file` has a `require` of the literal `specifier`, an entry of the bundle.
    RequiredEntry { file: FileName, specifier: String },
    /// `file`, a CommonJS module, has an `await` or a `for await` outside functions, as only a module may
    /// (ECMA-262, 16.2).
    AwaitInCommonJs { file: FileName },
    /// Two entries have one name or one file. `file` and `name` are those of the later one.
    DoubledEntry { file: FileName, name: String },
    /// `file` imports or re-exports from `specifier`, an external module, and a script has no imports.
    ExternalUnderIife { file: FileName, specifier: String },
    /// `file`, an ES module, has a free `arguments`, which the function round the script would bind
    /// (ECMA-262, 10.4.4).
    ArgumentsUnderIife { file: FileName },
    /// A growth was refused.
    OutOfMemory,
}

impl Error {
    /// The number of this kind of refusal, from 1 to 22. 6 is unused.
    pub fn number(&self) -> u32
        ensures { result ≡ number_of self.now }
    {
        match self {
            Error::Load { .. } => 1,
            Error::Resolve { .. } => 2,
            Error::Hook { .. } => 3,
            Error::TooManyModules { .. } => 4,
            Error::ContextsUsedUp { .. } => 5,
            Error::DoubledDeclaration { .. } => 7,
            Error::DoubledExport { .. } => 8,
            Error::UndeclaredExport { .. } => 9,
            Error::MissingExport { .. } => 10,
            Error::AmbiguousExport { .. } => 11,
            Error::ExternalStarOnly { .. } => 12,
            Error::StarOfCommonJs { .. } => 13,
            Error::NamespaceOverExternalStar { .. } => 14,
            Error::With { .. } => 15,
            Error::RequiredEsModule { .. } => 16,
            Error::RequiredEntry { .. } => 17,
            Error::AwaitInCommonJs { .. } => 18,
            Error::DoubledEntry { .. } => 19,
            Error::ExternalUnderIife { .. } => 20,
            Error::ArgumentsUnderIife { .. } => 21,
            Error::OutOfMemory => 22,
        }
    }

    /// The name of this kind of refusal.
    pub fn name(&self) -> &'static str
        ensures { result.now ≡ variant_name self.now }
    {
        match self {
            Error::Load { .. } => "Load",
            Error::Resolve { .. } => "Resolve",
            Error::Hook { .. } => "Hook",
            Error::TooManyModules { .. } => "TooManyModules",
            Error::ContextsUsedUp { .. } => "ContextsUsedUp",
            Error::DoubledDeclaration { .. } => "DoubledDeclaration",
            Error::DoubledExport { .. } => "DoubledExport",
            Error::UndeclaredExport { .. } => "UndeclaredExport",
            Error::MissingExport { .. } => "MissingExport",
            Error::AmbiguousExport { .. } => "AmbiguousExport",
            Error::ExternalStarOnly { .. } => "ExternalStarOnly",
            Error::StarOfCommonJs { .. } => "StarOfCommonJs",
            Error::NamespaceOverExternalStar { .. } => "NamespaceOverExternalStar",
            Error::With { .. } => "With",
            Error::RequiredEsModule { .. } => "RequiredEsModule",
            Error::RequiredEntry { .. } => "RequiredEntry",
            Error::AwaitInCommonJs { .. } => "AwaitInCommonJs",
            Error::DoubledEntry { .. } => "DoubledEntry",
            Error::ExternalUnderIife { .. } => "ExternalUnderIife",
            Error::ArgumentsUnderIife { .. } => "ArgumentsUnderIife",
            Error::OutOfMemory => "OutOfMemory",
        }
    }
}

/// Writes the name of the refusal.
impl fmt::Display for Error {
    ghost use Rattle.std.specs.Prelude.{Some};
    ghost use Rattle.bundle_tree_names.specs.Error.{variant_name};

    ghost output = { λ refusal. Some (variant_name refusal) };

    fn fmt<W: fmt::Write>(&self, f: &mut fmt::Formatter<W>) -> fmt::Result {
        let name = self.name();
        write!(f, "{name}")
    }
}

impl error::Error for Error {}

impl From<AllocError> for Error {
    ghost use Rattle.std.specs.Prelude.{◌≡◌};
    ghost use Rattle.bundle_tree_names.specs.declared.error.Error.TheVariants.{OutOfMemory};

    ghost from_gives = { λ _ refusal. refusal ≡ OutOfMemory };

    fn from(_refused: AllocError) -> Error {
        Self::OutOfMemory
    }
}

impl<T: Drop> From<AllocFailed<T>> for Error {
    ghost use Rattle.std.specs.Prelude.{◌≡◌};
    ghost use Rattle.bundle_tree_names.specs.declared.error.Error.TheVariants.{OutOfMemory};

    ghost from_gives = { λ _ refusal. refusal ≡ OutOfMemory };

    fn from(refused: AllocFailed<T>) -> Error {
        Error::from(AllocError::from(refused))
    }
}
