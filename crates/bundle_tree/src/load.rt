//! The loader: from the name of a file to its module.

ghost use Rattle.std.specs.Prelude.{◌≡◌, ◌≢◌, IfOk, Err};
ghost use Rattle.bundle_tree_names.specs.FileName.{name_of};

use bundle_tree_ast::Module;
use bundle_tree_names::file_name::FileName;
use std::alloc::Global;
use std::{error, fmt};

/// A module as a loader gives it, and the name that it gives the file. The linker speaks of a file by
/// the name that it asked for; the hook sees this one.
#[derive(Debug, Drop)]
pub struct ModuleData {
    pub file_name: FileName,
    pub module: Module,
}

/// Why a loader gives no module.
#[derive(Clone, Copy, PartialEq, Eq, Debug, Drop)]
pub enum LoadError {
    /// The file cannot be loaded.
    Failed,
    /// A growth was refused.
    OutOfMemory,
}

/// Writes why.
impl fmt::Display for LoadError {
    ghost use Rattle.std.specs.Prelude.{Some};
    ghost use Rattle.bundle_tree.specs.Error.{load_error_shown};

    ghost output = { λ refusal. Some (load_error_shown refusal) };

    fn fmt<W: fmt::Write>(&self, f: &mut fmt::Formatter<W>) -> fmt::Result {
        let reason = match self {
            LoadError::Failed => "the file cannot be loaded",
            LoadError::OutOfMemory => "out of memory",
        };
        write!(f, "{reason}")
    }
}

impl error::Error for LoadError {}

/// Loads modules. Each implementation says which module it may give for a name, and for which names it
/// may fail; asked twice, it may give two answers.
pub trait Load {
    ghost use Rattle.std.specs.Prelude.{ℕ};
    ghost use Rattle.bundle_tree_names.specs.FileName.{Name};
    ghost use Rattle.bundle_tree.specs.declared.load.ModuleData.{ModuleData};

    /// The answers that it may give for a name.
    ghost may_load: { Self → Name → ModuleData → Type 0 };

    /// The names for which it may fail.
    ghost may_fail_load: { Self → Name → Type 0 };

    /// The module of a file. Refused where it cannot be loaded, and for memory.
    fn load(&self, alloc: Global, file: &FileName) -> Result<ModuleData, LoadError>
        ensures answer { IfOk result (λ loaded. may_load self.now (name_of file.now) loaded) }
        ensures failure { result ≡ Err LoadError.Failed →
            may_fail_load self.now (name_of file.now) };

    /// The module of a file, of a loader that is not asked for that file again: where `load` gives a copy, it may
    /// hand over what it has. By itself it does what `load` does. For any other file it may give from then on
    /// what it might before, and fail where it might.
    fn hand_over(&mut self, alloc: Global, file: &FileName) -> Result<ModuleData, LoadError>
        ensures answer { IfOk result (λ loaded. may_load self.old (name_of file.now) loaded) }
        ensures failure { result ≡ Err LoadError.Failed →
            may_fail_load self.old (name_of file.now) }
        ensures others { (other : Name) (given : ModuleData) →
            other ≢ name_of file.now →
            may_load self.new other given →
            may_load self.old other given }
        ensures other_failures { (other : Name) →
            other ≢ name_of file.now →
            may_fail_load self.new other →
            may_fail_load self.old other }
    {
        self.load(alloc, file)
    }
}

impl<T: Load> Load for &T {
    ghost may_load = { λ s. T.may_load s.now };

    ghost may_fail_load = { λ s. T.may_fail_load s.now };

    fn load(&self, alloc: Global, file: &FileName) -> Result<ModuleData, LoadError> {
        (**self).load(alloc, file)
    }
}
