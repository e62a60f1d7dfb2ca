//! The refusal for each fault that stands in a tree or between modules.

ghost use Rattle.std.specs.Prelude.{◌≡◌, IfOk, List, Contains};
ghost use Rattle.bundle_tree_names.specs.FileName.{Name, name_of};
ghost use Rattle.bundle_link_tables.specs.TablesOf.{fault_in};
ghost use Rattle.bundle_link_targets.specs.Judged.{fault_says};
ghost use Rattle.bundle_rules.specs.Faults.{fault_of};
ghost use Rattle.bundle_link.specs.Refusals.{IsLinkRefusal};

use bundle_link_tables::FileFault;
use bundle_link_targets::{FaultKind, LinkFault};
use bundle_tree_names::{Error, FileName};
use std::alloc::{AllocError, Global};

/// The refusal for a fault of the tree of a file.
pub(crate) fn tree_refusal<'a>(
    alloc: Global,
    file: &FileName,
    fault: FileFault<'a>,
) -> Result<Error, AllocError>
    ensures { IfOk result (λ refusal.
        fault_of refusal ≡ Some (fault_in (name_of file.now) fault.entry)) }
{
    let file = file.clone()?;
    Ok(match fault {
        FileFault::DoubledExport { name } => Error::DoubledExport {
            file,
            name: String::from_str(alloc, name)?,
        },
        FileFault::UndeclaredExport { name } => Error::UndeclaredExport {
            file,
            name: String::from_str(alloc, name)?,
        },
        FileFault::With => Error::With { file },
    })
}

/// The refusal for a fault that linking finds in a file.
pub(crate) fn link_refusal<'a>(
    alloc: Global,
    file: &FileName,
    fault: LinkFault<'a>,
) -> Result<Error, AllocError>
    ensures named { IfOk result (λ refusal.
        (files : List Name) → Contains files (name_of file.now) → IsLinkRefusal files refusal) }
    ensures told { IfOk result (λ refusal.
        fault_of refusal ≡ Some (fault_says (name_of file.now) fault.entry)) }
{
    let file = file.clone()?;
    let name = String::from_str(alloc, fault.name)?;
    Ok(match fault.kind {
        FaultKind::RequiredEntry => Error::RequiredEntry {
            file,
            specifier: name,
        },
        FaultKind::RequiredEsModule => Error::RequiredEsModule {
            file,
            specifier: name,
        },
        FaultKind::AwaitInCommonJs => Error::AwaitInCommonJs { file },
        FaultKind::StarOfCommonJs => Error::StarOfCommonJs {
            file,
            specifier: name,
        },
        FaultKind::MissingExport => Error::MissingExport { file, name },
        FaultKind::AmbiguousExport => Error::AmbiguousExport { file, name },
        FaultKind::ExternalStarOnly => Error::ExternalStarOnly { file, name },
        FaultKind::NamespaceOverExternalStar => Error::NamespaceOverExternalStar { file },
        FaultKind::ExternalUnderIife => Error::ExternalUnderIife {
            file,
            specifier: name,
        },
        FaultKind::ArgumentsUnderIife => Error::ArgumentsUnderIife { file },
    })
}
