//! Modules by their numbers.

ghost use Rattle.std.specs.Prelude.{◌≡◌, IfOk, map};
ghost use Rattle.std.specs.List.{AllZip};
ghost use Rattle.std.specs.BTreeMap.{get_by_text};
ghost use Rattle.bundle_rules.specs.Nodes.{Text, numbers_once};
ghost use Rattle.bundle_link.specs.Leads.{module_place, last_told};
ghost use Rattle.bundle_link.specs.Numbered.{IsPlacedBy, numbers};

use bundle_link_tables::Tables;
use bundle_tree_names::ModuleId;
use indexmap::IndexSet;
use std::alloc::{AllocError, Global};
use std::collections::BTreeMap;

/// A module that is to be linked: its number, its tables, and the number of the module to which each of its requests
/// leads.
#[derive(Clone, Copy)]
pub struct NumberedModule<'t, 'a> {
    pub id: u32,
    pub tables: &'t Tables<'a>,
    pub deps: &'t [(String, ModuleId)],
}

/// The places among these of the modules to which requests lead, by their texts.
pub fn leads_of(
    alloc: Global,
    deps: &[(String, ModuleId)],
    ids: &IndexSet<ModuleId>,
) -> Result<BTreeMap<String, usize>, AllocError>
    ensures { IfOk result (λ leads. (s : Text) →
        get_by_text leads s ≡ last_told (module_place ids.now.keys) deps.now s) }
{
    let mut leads = BTreeMap::new(alloc);
    for (specifier, id) in deps {
        if let Some(place) = ids.get_index_of(id) {
            leads.insert(specifier.clone()?, place)?;
        }
    }
    Ok(leads)
}

/// The numbers of modules, in their order.
pub(crate) fn ids_of<'t, 'a>(
    alloc: Global,
    modules: &[NumberedModule<'t, 'a>],
) -> Result<IndexSet<ModuleId>, AllocError>
    ensures { IfOk result (λ ids. ids.keys ≡ numbers_once (numbers modules.now)) }
{
    let mut ids = IndexSet::new(alloc);
    for module in modules {
        ids.insert(ModuleId::from_u32(module.id))?;
    }
    Ok(ids)
}

/// For each module the places of those to which its requests lead.
pub(crate) fn leads_of_all<'t, 'a>(
    alloc: Global,
    modules: &[NumberedModule<'t, 'a>],
    ids: &IndexSet<ModuleId>,
) -> Result<Vec<BTreeMap<String, usize>>, AllocError>
    ensures { IfOk result (λ leads. AllZip (IsPlacedBy ids.now.keys) modules.now leads.items) }
{
    let mut leads = Vec::new(alloc);
    for module in modules {
        leads.push(leads_of(alloc, module.deps, ids)?)?;
    }
    Ok(leads)
}
