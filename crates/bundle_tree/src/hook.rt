//! The hook: what `import.meta` holds.

ghost use Rattle.std.specs.Prelude.{◌≡◌, IfOk, Err};

use bundle_tree_ast::KeyValueProp;
use bundle_tree_names::file_name::FileName;
use std::alloc::Global;
use std::{error, fmt};

/// The module whose `import.meta` is asked for: the name that the loader gave its file, and whether it
/// is the entry of the bundle.
#[derive(Debug, Drop)]
pub struct ModuleRecord {
    pub file_name: FileName,
    pub is_entry: bool,
}

/// Why a hook gives no properties.
#[derive(Clone, Copy, PartialEq, Eq, Debug, Drop)]
pub enum HookError {
    /// The hook has no answer.
    Failed,
    /// A growth was refused.
    OutOfMemory,
}

/// Writes why.
impl fmt::Display for HookError {
    ghost use Rattle.std.specs.Prelude.{Some};
    ghost use Rattle.bundle_tree.specs.Error.{hook_error_shown};

    ghost output = { λ refusal. Some (hook_error_shown refusal) };

    fn fmt<W: fmt::Write>(&self, f: &mut fmt::Formatter<W>) -> fmt::Result {
        let reason = match self {
            HookError::Failed => "the hook has no answer",
            HookError::OutOfMemory => "out of memory",
        };
        write!(f, "{reason}")
    }
}

impl error::Error for HookError {}

/// Gives the properties of `import.meta` (ECMA-262, 13.3.12.1 HostGetImportMetaProperties). Each
/// implementation says which properties it may give for a module, and where it may fail; asked twice,
/// it may give two answers.
pub trait Hook: Drop {
    ghost use Rattle.std.specs.Prelude.{ℕ, List, Bool};
    ghost use Rattle.bundle_tree_names.specs.FileName.{name_of, Name};
    ghost use Rattle.bundle_tree_ast.specs.declared.prop.KeyValueProp.{KeyValueProp};
    ghost use Rattle.bundle_tree_ast.specs.declared.expr.Expr.{Expr};

    /// The lists that it may give for a file, the entry or not.
    ghost may_give: { Self → Name → Bool → List (KeyValueProp Expr) → Type 0 };

    /// Where it may fail.
    ghost may_fail_hook: { Self → Name → Bool → Type 0 };

    /// The properties of `import.meta` in a module. Refused where there are none, and for memory.
    fn get_import_meta_props(
        &self,
        alloc: Global,
        module_record: &ModuleRecord,
    ) -> Result<Vec<KeyValueProp>, HookError>
        ensures answer { IfOk result (λ props.
            may_give self.now (name_of module_record.now.file_name) module_record.now.is_entry
            props.items) }
        ensures failure { result ≡ Err HookError.Failed →
            may_fail_hook self.now (name_of module_record.now.file_name)
            module_record.now.is_entry };
}
