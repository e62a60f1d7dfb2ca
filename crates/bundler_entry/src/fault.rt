//! The refusal for each fault that is found in a module or between modules.

ghost use Rattle.std.specs.Prelude.{◌≡◌, Some, IfOk};
ghost use Rattle.bundle_tree_names.specs.FileName.{name_of};
ghost use Rattle.bundle_link_targets.specs.Judged.{fault_says};
ghost use Rattle.bundle_rules.specs.Faults.{DoubledDeclaration, fault_of};
ghost use Rattle.bundler_entry.specs.Unlinked.{error_of};

use crate::unlinked::EntryError;
use bundle_link_targets::{FaultKind, LinkFault};
use bundle_scope_denote::Doubled;
use bundle_tree_names::file_name::FileName;
use std::alloc::{AllocError, Global};

/// The refusal for a name that a file declares twice.
pub fn doubled_refusal(
    alloc: Global,
    file: &FileName,
    doubled: Doubled,
) -> Result<EntryError, AllocError>
    ensures { IfOk result (λ refusal.
        fault_of (error_of refusal)
        ≡ Some (DoubledDeclaration (name_of file.now) doubled.entry.name.now)) }
{
    let name = String::from_str(alloc, doubled.name)?;
    let file = file.clone()?;
    Ok(EntryError::DoubledDeclaration { file, name })
}

/// The refusal for a fault that linking finds in a file.
pub fn link_refusal(
    alloc: Global,
    file: &FileName,
    fault: LinkFault,
) -> Result<EntryError, AllocError>
    ensures { IfOk result (λ refusal.
        fault_of (error_of refusal) ≡ Some (fault_says (name_of file.now) fault.entry)) }
{
    let file = file.clone()?;
    let name = String::from_str(alloc, fault.name)?;
    Ok(match fault.kind {
        FaultKind::RequiredEntry => EntryError::RequiredEntry {
            file,
            specifier: name,
        },
        FaultKind::RequiredEsModule => EntryError::RequiredEsModule {
            file,
            specifier: name,
        },
        FaultKind::AwaitInCommonJs => EntryError::AwaitInCommonJs { file },
        FaultKind::StarOfCommonJs => EntryError::StarOfCommonJs {
            file,
            specifier: name,
        },
        FaultKind::MissingExport => EntryError::MissingExport { file, name },
        FaultKind::AmbiguousExport => EntryError::AmbiguousExport { file, name },
        FaultKind::ExternalStarOnly => EntryError::ExternalStarOnly { file, name },
        FaultKind::NamespaceOverExternalStar => EntryError::NamespaceOverExternalStar { file },
        FaultKind::ExternalUnderIife => EntryError::ExternalUnderIife {
            file,
            specifier: name,
        },
        FaultKind::ArgumentsUnderIife => EntryError::ArgumentsUnderIife { file },
    })
}
