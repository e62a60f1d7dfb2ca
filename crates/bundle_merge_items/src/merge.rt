//! The modules of a bundle as one: what is imported, the helper, the modules block by block, and what is exported.

ghost use Rattle.std.specs.Prelude.{◌≡◌, ◌<◌, ◌-◌, ◌++◌, ◌∷◌, ℕ, Bool, true, List, [], Option, Contains, IfErr, IfOk, OnOk, flat_map, length, map, replicate};
ghost use Rattle.std.specs.List.{list_any};
ghost use Rattle.bundle_rules.specs.Bundle.{Helps, Stars};
ghost use Rattle.bundle_rules.specs.Program.{Program};
ghost use Rattle.bundle_merge_theory.specs.made.Given.{HookAnswer};
ghost use Rattle.bundle_merge_theory.specs.made.Alone.{AreTreesSound};
ghost use Rattle.bundle_merge_theory.specs.planned.Decided.{back_plan, external_plan, front_plan, module_plan, object_plan, one_if};
ghost use Rattle.bundle_merge_theory.specs.sound.Decided.{AreTablesTold};
ghost use Rattle.bundle_merge_names.specs.Bundle.{AreBundleParts};
ghost use Rattle.bundle_merge_names.specs.Numbers.{position};
ghost use Rattle.bundle_merge_names.specs.Refused.{RefusesNames, TakesFew};
ghost use Rattle.bundle_merge_items.specs.Adds.{AreAnswered};
ghost use Rattle.bundle_merge_items.specs.Blocks.{AddsBlocks, AddsOwned, AddsPlan, AreItemsMade, AreBundleModules, InBundle, IsBlockPut, IsBlockPlaced};
ghost use Rattle.bundle_merge_items.specs.Merged.{AddsBlock, AreBlocksOnce, IsMergedOf};
ghost use Rattle.bundle_order.specs.Owned.{AreTogether};
ghost use Rattle.bundle_syntax.specs.Item.{Item};
ghost use Rattle.bundle_tree_listed.specs.Tree.{stmt_items};
ghost use Rattle.bundle_merge_injected.specs.Listed.{pair_of};
ghost use Rattle.bundle_merge_items.specs.Added as added;
ghost use Rattle.bundle_merge_items.specs.Added.{AreExports, AreLinkedPairs, IsObject, export_list_of, module_item_lists};

use crate::module::{add_item, add_module, add_stmt};
use crate::outside::{add_external, add_helper};
use bundle_link_targets::TargetRef;
use bundle_merge_injected::{Pair, export_list, export_star, namespace_object};
use bundle_merge_names::{BundleInput, BundleNames, FreshContexts, MergeError, names_of};
use bundle_order::sorted_numbers;
use bundle_order_sort::{Block, arrange};
use bundle_tree_ast::{ExportMetadata, Module, Stmt};
use std::alloc::{AllocError, Global};

/// The items of a bundle in their order, as a module, and the contexts that are free.
#[derive(Drop)]
pub struct MergedModule {
    pub tree: Module,
    pub contexts: FreshContexts,
}

/// The modules of a bundle as one. Refused where contexts run out, and for memory.
pub fn merge_modules(
    alloc: Global,
    bundle: &BundleInput<'_, '_, '_>,
) -> Result<MergedModule, MergeError>
    ensures merged { IfOk result (λ merged.
        (q : Program) (list : List ℕ) (answers : ℕ → Option HookAnswer)
        (meta : ℕ → Bool) (count : ℕ → ℕ) →
        AreTreesSound q list →
        AreBundleParts q list answers bundle.now →
        AreBlocksOnce bundle.now →
        AreAnswered q answers →
        AreTablesTold q (length bundle.now.parts.now) meta count →
        IsMergedOf q list answers bundle.now meta count merged) }
    ensures few { IfOk result (λ merged.
        (q : Program) (list : List ℕ) (answers : ℕ → Option HookAnswer) →
        AreBundleParts q list answers bundle.now →
        TakesFew q list answers (position bundle.now.contexts) (position merged.contexts)) }
    ensures refused { IfErr result (λ refusal.
        (q : Program) (list : List ℕ) (answers : ℕ → Option HookAnswer) →
        AreBundleParts q list answers bundle.now →
        RefusesNames q list answers (position bundle.now.contexts) refusal) }
{
    let names = names_of(alloc, bundle)?;
    let tree = merged_module(alloc, bundle, &names)?;
    Ok(MergedModule {
        tree,
        contexts: names.contexts(),
    })
}

// The items of a bundle that has these names.
fn merged_module<'a>(
    alloc: Global,
    bundle: &BundleInput<'_, 'a, '_>,
    names: &BundleNames<'a>,
) -> Result<Module, AllocError>
    ensures { IfOk result (λ merged. AreBlocksOnce bundle.now →
        InBundle bundle.now names.now (λ q list answers context d.
        AreItemsMade q list answers context d merged)) }
{
    let mut items = no_items(alloc);
    add_front(alloc, bundle, names, &mut items)?;
    add_blocks(alloc, bundle, names, &mut items)?;
    add_back(alloc, bundle, names, &mut items)?;
    Ok(items)
}

fn no_items(alloc: Global) -> Module
    ensures { module_item_lists result ≡ [] }
{
    Module {
        body: Vec::new(alloc),
    }
}

// Adds what stands in front of the blocks: what is imported, and the helper.
fn add_front<'a>(
    alloc: Global,
    bundle: &BundleInput<'_, 'a, '_>,
    names: &BundleNames<'a>,
    items: &mut Module,
) -> Result<(), AllocError>
    ensures { OnOk result
        (AddsPlan bundle.now names.now (λ d. front_plan d) items.old items.new) }
{
    add_externals(alloc, bundle, names, items)?;
    add_helpers(alloc, bundle, names, items)?;
    Ok(())
}

// Adds what is imported.
fn add_externals<'a>(
    alloc: Global,
    bundle: &BundleInput<'_, 'a, '_>,
    names: &BundleNames<'a>,
    items: &mut Module,
) -> Result<(), AllocError>
    ensures { OnOk result
        (AddsPlan bundle.now names.now (λ d. flat_map external_plan d.externals)
        items.old items.new) }
{
    for external in bundle.linking.externals() {
        add_external(alloc, names, external, items)?;
    }
    Ok(())
}

// Adds the helper, where some module is CommonJS.
fn add_helpers<'a>(
    alloc: Global,
    bundle: &BundleInput<'_, 'a, '_>,
    names: &BundleNames<'a>,
    items: &mut Module,
) -> Result<(), AllocError>
    ensures { OnOk result
        (AddsPlan bundle.now names.now (λ d. one_if (list_any d.is_common_js d.list) Helps)
        items.old items.new) }
{
    if !bundle.has_common_js() {
        return Ok(());
    }
    add_helper(alloc, names, items)?;
    Ok(())
}

// Adds what stands behind the blocks: the stars of externals, and what is exported.
fn add_back<'a>(
    alloc: Global,
    bundle: &BundleInput<'_, 'a, '_>,
    names: &BundleNames<'a>,
    items: &mut Module,
) -> Result<(), AllocError>
    ensures { OnOk result
        (AddsPlan bundle.now names.now (λ d. back_plan d) items.old items.new) }
{
    add_stars(alloc, bundle, names, items)?;
    add_exports(alloc, bundle, names, items)?;
    Ok(())
}

// Adds the stars of externals.
fn add_stars<'a>(
    alloc: Global,
    bundle: &BundleInput<'_, 'a, '_>,
    names: &BundleNames<'a>,
    items: &mut Module,
) -> Result<(), AllocError>
    ensures { OnOk result
        (AddsPlan bundle.now names.now (λ d. map Stars d.stars) items.old items.new) }
{
    for specifier in bundle.linking.external_stars() {
        add_item(items, export_star(alloc, *specifier)?)?;
    }
    Ok(())
}

// Adds the blocks.
fn add_blocks<'a>(
    alloc: Global,
    bundle: &BundleInput<'_, 'a, '_>,
    names: &BundleNames<'a>,
    items: &mut Module,
) -> Result<(), AllocError>
    ensures { OnOk result (
        AreBlocksOnce bundle.now →
        InBundle bundle.now names.now (λ q list answers context d.
        AddsBlocks q list answers context d bundle.now.blocks.now items.old items.new)) }
{
    for block in bundle.blocks {
        add_block(alloc, bundle, names, block, items)?;
    }
    Ok(())
}

// Adds the items of a block in their order.
fn add_block<'a>(
    alloc: Global,
    bundle: &BundleInput<'_, 'a, '_>,
    names: &BundleNames<'a>,
    block: &Block,
    items: &mut Module,
) -> Result<(), AllocError>
    ensures { OnOk result (
        AreBlocksOnce bundle.now →
        Contains bundle.now.blocks.now block.now →
        InBundle bundle.now names.now (λ q list answers context d.
        AddsBlock q list answers context d block.now items.old items.new)) }
{
    let mut its = no_items(alloc);
    put_block(alloc, bundle, names, block, &mut its)?;
    items.body.append(&mut its.body)?;
    Ok(())
}

// Puts the items of a block: those of its modules, and then the free ones; sorted, where it is a cycle.
fn put_block<'a>(
    alloc: Global,
    bundle: &BundleInput<'_, 'a, '_>,
    names: &BundleNames<'a>,
    block: &Block,
    its: &mut Module,
) -> Result<(), AllocError>
    ensures { OnOk result (
        AreBlocksOnce bundle.now →
        Contains bundle.now.blocks.now block.now →
        module_item_lists its.old ≡ [] →
        InBundle bundle.now names.now (λ q list answers context d.
        IsBlockPut q list answers context d block.now its.new)) }
{
    let mut owners = Vec::new(alloc);
    add_modules(alloc, bundle, names, block, its, &mut owners)?;
    add_objects(alloc, bundle, names, block, its, &mut owners)?;
    sort_cycle(alloc, block, its, &owners)?;
    Ok(())
}

// Puts the items of a block into their order, where it is a cycle.
fn sort_cycle(
    alloc: Global,
    block: &Block,
    its: &mut Module,
    owners: &[Option<usize>],
) -> Result<(), AllocError>
    ensures { OnOk result (
        length owners.now ≡ length its.old.body.items →
        AreTogether owners.now →
        IsBlockPlaced block.now.is_cycle (module_item_lists its.old) owners.now (module_item_lists its.new)) }
{
    if block.is_cycle {
        return sort(alloc, its, owners);
    }
    Ok(())
}

// Puts items into the order in which they are to stand, where each is of the module that is told, or free.
fn sort(alloc: Global, items: &mut Module, owners: &[Option<usize>]) -> Result<(), AllocError>
    ensures { OnOk result (
        length owners.now ≡ length items.old.body.items →
        AreTogether owners.now →
        IsBlockPlaced true (module_item_lists items.old) owners.now (module_item_lists items.new)) }
{
    let order = sorted_numbers(alloc, &items.body, owners)?;
    arrange(alloc, &mut items.body, &order)?;
    Ok(())
}

// Adds the items of the modules of a block.
fn add_modules<'a>(
    alloc: Global,
    bundle: &BundleInput<'_, 'a, '_>,
    names: &BundleNames<'a>,
    block: &Block,
    its: &mut Module,
    owners: &mut Vec<Option<usize>>,
) -> Result<(), AllocError>
    ensures { OnOk result (
        AreBundleModules bundle.now block.now.places.items →
        AddsOwned bundle.now names.now (λ d. flat_map (module_plan d) block.now.places.items)
        its.old its.new owners.old.items owners.new.items) }
{
    for which in &block.places {
        put_module(alloc, bundle, names, *which, its, owners)?;
    }
    Ok(())
}

// Adds the items of a module, and notes that they are of it.
fn put_module<'a>(
    alloc: Global,
    bundle: &BundleInput<'_, 'a, '_>,
    names: &BundleNames<'a>,
    which: usize,
    its: &mut Module,
    owners: &mut Vec<Option<usize>>,
) -> Result<(), AllocError>
    ensures { OnOk result (
        which < length bundle.now.parts.now →
        AddsOwned bundle.now names.now (λ d. module_plan d which)
        its.old its.new owners.old.items owners.new.items) }
{
    let Some(part) = bundle.parts.get(which) else {
        return Ok(());
    };
    add_module(alloc, bundle, names, which, part, its)?;
    note_owner(owners, Some(which), its.body.len())?;
    Ok(())
}

// Adds the objects of the modules of a block that are meant, which are free.
fn add_objects<'a>(
    alloc: Global,
    bundle: &BundleInput<'_, 'a, '_>,
    names: &BundleNames<'a>,
    block: &Block,
    its: &mut Module,
    owners: &mut Vec<Option<usize>>,
) -> Result<(), AllocError>
    ensures { OnOk result (
        AddsOwned bundle.now names.now (λ d. flat_map (object_plan d) block.now.places.items)
        its.old its.new owners.old.items owners.new.items) }
{
    for which in &block.places {
        put_object(alloc, bundle, names, *which, its, owners)?;
    }
    Ok(())
}

// Adds the object of a module's namespace, if it is meant, and notes that it is free.
fn put_object<'a>(
    alloc: Global,
    bundle: &BundleInput<'_, 'a, '_>,
    names: &BundleNames<'a>,
    which: usize,
    its: &mut Module,
    owners: &mut Vec<Option<usize>>,
) -> Result<(), AllocError>
    ensures { OnOk result (AddsOwned bundle.now names.now (λ d. object_plan d which)
        its.old its.new owners.old.items owners.new.items) }
{
    if !bundle.linking.is_object_meant(which) {
        return Ok(());
    }
    add_object(alloc, bundle, names, which, its)?;
    note_owner(owners, None, its.body.len())?;
    Ok(())
}

// Notes the owner of the items behind those that have one, up to so many.
fn note_owner(
    owners: &mut Vec<Option<usize>>,
    owner: Option<usize>,
    count: usize,
) -> Result<(), AllocError>
    ensures { OnOk result (owners.new.items
        ≡ owners.old.items ++ replicate (count - length owners.old.items) owner) }
{
    for _ in owners.len()..count {
        owners.push(owner)?;
    }
    Ok(())
}

// Adds the object of a module's namespace.
fn add_object<'a>(
    alloc: Global,
    bundle: &BundleInput<'_, 'a, '_>,
    names: &BundleNames<'a>,
    which: usize,
    its: &mut Module,
) -> Result<(), AllocError>
    ensures { OnOk result ((made : List Item) × IsObject bundle.now.linking.now names.now which made
        × (module_item_lists its.new ≡ module_item_lists its.old ++ made ∷ [])) }
{
    let object = namespace_stmt(alloc, bundle, names, which)?;
    add_stmt(its, object)
}

// The object of a module's namespace.
fn namespace_stmt<'a>(
    alloc: Global,
    bundle: &BundleInput<'_, 'a, '_>,
    names: &BundleNames<'a>,
    which: usize,
) -> Result<Stmt, AllocError>
    ensures { IfOk result (λ made.
        IsObject bundle.now.linking.now names.now which (stmt_items 0 made)) }
{
    let object = names.target(TargetRef::Namespace { which });
    let pairs = linked_pairs(alloc, bundle, names, which)?;
    let notes = ExportMetadata {
        injected: false,
        export_ctxt: None,
    };
    namespace_object(alloc, object, &pairs, notes)
}

// Adds the export list, where the entry exports something.
fn add_exports<'a>(
    alloc: Global,
    bundle: &BundleInput<'_, 'a, '_>,
    names: &BundleNames<'a>,
    items: &mut Module,
) -> Result<(), AllocError>
    ensures { OnOk result ((made : List (List Item)) ×
        AreExports bundle.now.linking.now names.now (length bundle.now.parts.now) made
        × (module_item_lists items.new ≡ module_item_lists items.old ++ made)) }
{
    match bundle.parts.len().checked_sub(1) {
        Some(entry) => {
            let pairs = linked_pairs(alloc, bundle, names, entry)?;
            add_export_list(alloc, &pairs, items)
        }
        None => Ok(()),
    }
}

// Adds the export list of these pairs, where there are some.
fn add_export_list<'a>(
    alloc: Global,
    pairs: &[Pair<'a>],
    items: &mut Module,
) -> Result<(), AllocError>
    ensures { OnOk result
        (module_item_lists items.new ≡ module_item_lists items.old ++ export_list_of (map pair_of pairs.now)) }
{
    if pairs.is_empty() {
        return Ok(());
    }
    add_item(items, export_list(alloc, pairs)?)
}

// The names that linking gives a module, with what stands for them.
fn linked_pairs<'a>(
    alloc: Global,
    bundle: &BundleInput<'_, 'a, '_>,
    names: &BundleNames<'a>,
    which: usize,
) -> Result<Vec<Pair<'a>>, AllocError>
    ensures { IfOk result (λ pairs.
        AreLinkedPairs bundle.now.linking.now names.now which (map pair_of pairs.items)) }
{
    pairs_of(alloc, names, bundle.linking.linked_names(which))
}

// Linked names, with what stands for them.
#[tactic(auto, using(crate::proofs::Adding::adding))]
fn pairs_of<'a>(
    alloc: Global,
    names: &BundleNames<'a>,
    linked: &[(&'a str, TargetRef<'a>)],
) -> Result<Vec<Pair<'a>>, AllocError>
    ensures { IfOk result (λ pairs.
        map pair_of pairs.items ≡ added.linked_pairs names.now linked.now) }
{
    let mut pairs = Vec::new(alloc);
    for (name, target) in linked {
        let local = names.target(*target);
        pairs.push(Pair { name: *name, local })?;
    }
    Ok(pairs)
}
