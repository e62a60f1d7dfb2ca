//! The resolver: from the specifier of an import to the name of a file.

ghost use Rattle.std.specs.Prelude.{◌≡◌, IfOk, Err};
ghost use Rattle.bundle_tree_names.specs.FileName.{name_of};

use bundle_tree_names::file_name::FileName;
use std::alloc::Global;
use std::{error, fmt};

/// Why a resolver gives no file.
#[derive(Clone, Copy, PartialEq, Eq, Debug, Drop)]
pub enum ResolveError {
    /// The specifier leads to no file.
    Failed,
    /// A growth was refused.
    OutOfMemory,
}

/// Writes why.
impl fmt::Display for ResolveError {
    ghost use Rattle.std.specs.Prelude.{Some};
    ghost use Rattle.bundle_tree.specs.Error.{resolve_error_shown};

    ghost output = { λ refusal. Some (resolve_error_shown refusal) };

    fn fmt<W: fmt::Write>(&self, f: &mut fmt::Formatter<W>) -> fmt::Result {
        let reason = match self {
            ResolveError::Failed => "the specifier leads to no file",
            ResolveError::OutOfMemory => "out of memory",
        };
        write!(f, "{reason}")
    }
}

impl error::Error for ResolveError {}

/// Resolves specifiers (ECMA-262, 16.2.1.8 HostResolveImportedModule). Each implementation says which
/// file it may give for a specifier of a file, and where it may fail; asked twice, it may give two
/// answers.
pub trait Resolve {
    ghost use Rattle.std.specs.Prelude.{ℕ, List};
    ghost use Rattle.bundle_tree_names.specs.FileName.{Name};

    /// The files that it may give for a specifier, as the text of the specifier stands in a file.
    ghost may_resolve: { Self → Name → List ℕ → Name → Type 0 };

    /// Where it may fail.
    ghost may_fail_resolve: { Self → Name → List ℕ → Type 0 };

    /// The file that `specifier` names in the file `base`. Refused where there is none, and for memory.
    fn resolve(
        &self,
        alloc: Global,
        base: &FileName,
        specifier: &str,
    ) -> Result<FileName, ResolveError>
        ensures answer { IfOk result (λ file.
            may_resolve self.now (name_of base.now) specifier.now (name_of file)) }
        ensures failure { result ≡ Err ResolveError.Failed →
            may_fail_resolve self.now (name_of base.now) specifier.now };
}

impl<T: Resolve> Resolve for &T {
    ghost may_resolve = { λ s. T.may_resolve s.now };

    ghost may_fail_resolve = { λ s. T.may_fail_resolve s.now };

    fn resolve(
        &self,
        alloc: Global,
        base: &FileName,
        specifier: &str,
    ) -> Result<FileName, ResolveError> {
        (**self).resolve(alloc, base, specifier)
    }
}
