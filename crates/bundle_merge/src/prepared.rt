//! The prepared items of modules, by the places of these on a list.

ghost use Rattle.std.specs.Prelude.{◌≡◌, [], IfOk, OnOk, map, replicate};
ghost use Rattle.bundle_tree_listed.specs.Tree.{module_item_items};
ghost use Rattle.bundle_rules.specs.Nodes.{numbers_once};
ghost use Rattle.bundle_rules.specs.Parts.{in_order};
ghost use Rattle.bundle_link_index.specs.Numbered.{HasNoDoubles};
ghost use Rattle.bundle_merge_items.specs.Added.{module_item_lists};
ghost use Rattle.bundle_merge.specs.Prepared.{items_of_each, with_one};

use bundle_merge_modules::Modules;
use bundle_tree_ast::{Module, ModuleItem};
use bundle_tree_names::ModuleId;
use bundle_tree_rewrite::rebuild_item;
use indexmap::IndexSet;
use std::alloc::{AllocError, Global};

/// The modules on a list, each once.
pub(crate) fn places_of(alloc: Global, list: &[ModuleId]) -> Result<IndexSet<ModuleId>, AllocError>
    ensures { IfOk result (λ places. places.keys ≡ numbers_once list.now) }
{
    let mut places = IndexSet::new(alloc);
    for id in list {
        places.insert(*id)?;
    }
    Ok(places)
}

/// Copies of the prepared items of each of these modules.
pub(crate) fn copies_of(
    alloc: Global,
    places: &IndexSet<ModuleId>,
    prepared: &Modules,
) -> Result<Vec<Module>, AllocError>
    ensures { IfOk result (λ copies. HasNoDoubles places.now.keys →
        map module_item_lists copies.items ≡ items_of_each (in_order prepared.now) places.now.keys) }
{
    let mut copies = empty_modules(alloc, places.len())?;
    for (id, item) in prepared.iter() {
        if let Some(place) = places.get_index_of(&id) {
            add_copy(alloc, &mut copies, place, item)?;
        }
    }
    Ok(copies)
}

// So many modules without items.
fn empty_modules(alloc: Global, count: usize) -> Result<Vec<Module>, AllocError>
    ensures { IfOk result (λ modules. map module_item_lists modules.items ≡ replicate count []) }
{
    let mut modules = Vec::new(alloc);
    for _ in 0..count {
        modules.push(Module {
            body: Vec::new(alloc),
        })?;
    }
    Ok(modules)
}

// Adds a copy of an item to the module at a place.
fn add_copy(
    alloc: Global,
    copies: &mut Vec<Module>,
    place: usize,
    item: &ModuleItem,
) -> Result<(), AllocError>
    ensures { OnOk result (map module_item_lists copies.new.items
        ≡ with_one place (module_item_items 0 item.now) (map module_item_lists copies.old.items)) }
{
    if let Some(module) = copies.get_mut(place) {
        module.body.push(rebuild_item(alloc, item, &[])?)?;
    }
    Ok(())
}
