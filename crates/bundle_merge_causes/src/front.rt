//! The causes in front of the modules: what is imported, and the helper.

ghost use Rattle.std.specs.Prelude.{◌≡◌, ◌++◌, ◌<◌, ◌↔◌, ℕ, IsTrue, OnOk, flat_map, length};
ghost use Rattle.bundle_rules.specs.Linking.{IsCommonJs};
ghost use Rattle.bundle_rules.specs.Program.{Program};
ghost use Rattle.bundle_link_targets.specs.Linked.{IsLinkingOf};
ghost use Rattle.bundle_merge_theory.specs.planned.Decided.{front_plan};
ghost use Rattle.bundle_merge_causes.specs.Told.{causes_told, imports_of, names_import, other_import};
ghost use Rattle.bundle_merge_causes.specs.Planned.{Adds};

use crate::cause::{ItemCause, add, add_if};
use crate::shape::ModuleShape;
use bundle_link_targets::{External, Linking};
use std::alloc::{AllocError, Global};

/// Adds the causes in front of the modules.
pub(crate) fn add_front(
    alloc: Global,
    linking: &Linking<'_>,
    shapes: &[ModuleShape],
    causes: &mut Vec<ItemCause>,
) -> Result<(), AllocError>
    ensures { OnOk result (Adds linking.now shapes.now (λ d. front_plan d)
        (causes_told causes.old.items) (causes_told causes.new.items)) }
{
    add_externals(alloc, linking.externals(), causes)?;
    add_if(
        has_common_js(linking, shapes.len()),
        ItemCause::Helper,
        causes,
    )
}

// Adds the causes of what is imported.
fn add_externals(
    alloc: Global,
    externals: &[External<'_>],
    causes: &mut Vec<ItemCause>,
) -> Result<(), AllocError>
    ensures { OnOk result (causes_told causes.new.items
        ≡ causes_told causes.old.items ++ flat_map imports_of externals.now) }
{
    for external in externals {
        add_external(alloc, external, causes)?;
    }
    Ok(())
}

// Adds the causes of what is imported of an external: names, the whole, or nothing.
#[tactic(auto, using(crate::proofs::Adding::adding))]
fn add_external(
    alloc: Global,
    external: &External<'_>,
    causes: &mut Vec<ItemCause>,
) -> Result<(), AllocError>
    ensures { OnOk result (causes_told causes.new.items
        ≡ causes_told causes.old.items ++ imports_of external.now) }
{
    add_names(alloc, external, causes)?;
    add_other(alloc, external, causes)
}

// Adds the cause of the import of names of an external, if some are meant.
fn add_names(
    alloc: Global,
    external: &External<'_>,
    causes: &mut Vec<ItemCause>,
) -> Result<(), AllocError>
    ensures { OnOk result (causes_told causes.new.items ≡ causes_told causes.old.items
        ++ names_import external.now.specifier.now external.now.names.items) }
{
    if external.names.is_empty() {
        return Ok(());
    }
    let specifier = String::from_str(alloc, external.specifier)?;
    add(causes, ItemCause::NamesImport { specifier })
}

// Adds the cause of the import of the whole of an external, or of nothing where no name of it is meant.
fn add_other(
    alloc: Global,
    external: &External<'_>,
    causes: &mut Vec<ItemCause>,
) -> Result<(), AllocError>
    ensures { OnOk result (causes_told causes.new.items ≡ causes_told causes.old.items
        ++ other_import external.now.specifier.now external.now.whole external.now.names.items) }
{
    if external.whole {
        let specifier = String::from_str(alloc, external.specifier)?;
        add(causes, ItemCause::WholeImport { specifier })
    } else if external.names.is_empty() {
        let specifier = String::from_str(alloc, external.specifier)?;
        add(causes, ItemCause::BareImport { specifier })
    } else {
        Ok(())
    }
}

// Whether one of so many modules is CommonJS.
fn has_common_js(linking: &Linking<'_>, count: usize) -> bool
    ensures { (p : Program) → IsLinkingOf p linking.now →
        IsTrue result ↔ ((m : ℕ) × (m < count) × IsCommonJs p m) }
{
    for which in 0..count {
        if linking.is_common_js(which) {
            return true;
        }
    }
    false
}
