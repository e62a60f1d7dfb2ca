//! One module of the modules of a linker: they are read, linked and merged by their places on its list.

ghost use Rattle.std.specs.Prelude.{◌≡◌, ◌⊎◌, ◌≤◌, ℕ, Contains, IfErr, IfOk, IfSome, List, OnErr, OnOk, Some, length, map, option_map, slice_get};
ghost use Rattle.std.specs.List.{AllZip};
ghost use Rattle.bundle_tree_names.specs.FileName.{name_of};
ghost use Rattle.bundle_syntax.specs.Item.{Item};
ghost use Rattle.bundle_rules.specs.Faults.{NeedsTooManyContexts};
ghost use Rattle.bundle_rules.specs.Merged.{Contexts as ModuleContexts, IsMerged, IsPrepared};
ghost use Rattle.bundle_rules.specs.Nodes.{numbers_once};
ghost use Rattle.bundle_rules.specs.Parts as Parts;
ghost use Rattle.bundle_rules.specs.Program.{Program};
ghost use Rattle.bundle_link.specs.Held.{entry_of, list_of, modules_of};
ghost use Rattle.bundle_link.specs.declared.transformed.TransformedModule as transformed;
ghost use Rattle.bundle_scope.specs.Contexts.{HasGiven};
ghost use Rattle.bundle_scope.specs.Refusals.{IsUsedUp};
ghost use Rattle.bundle_merge_theory.specs.joined.Joined as tree;
ghost use Rattle.bundle_merge_names.specs.Numbers.{position};
ghost use Rattle.bundle_merge_items.specs.Added.{module_item_lists};
ghost use Rattle.bundle_merge.specs.Handed.{AreReadFrom, AreReadIn, IsLinkRead, IsLinkedRead, IsMadeOfRead, IsPartRead, MayRefuseRead};
ghost use Rattle.bundle_merge.specs.Prepared.{items_of_each};
ghost use Rattle.bundle_merge.specs.Read.{AreAllKnown, IsModuleKnown};
ghost use Rattle.bundle_merge.specs.Ready.{Answering, IsMergeable, hooks_by};
ghost use Rattle.bundle_merge.specs.Standing.{HasContextsBelow};
ghost use Rattle.bundle_merge.specs.Refusals.{HasOwnFault, HasPreparedFault, IsLack, IsLackAfter, IsMergeRefusal, IsRefusalOfRead, MayLack, MayLackNames, MayRefuseMerge};

use crate::prepared::{copies_of, places_of};
use crate::read::{ReadModule, read_module};
use bundle_link::link::{Linker, TransformedModule};
use bundle_link::merging;
use bundle_link_targets::{LinkModule, Linking};
use bundle_merge_items::{
    BundleInput, BundleModule, FreshContexts as Numbers, MergeError, MergedModule, merge_modules,
};
use bundle_merge_modules::Modules;
use bundle_order_sort::{Block, plan_of};
use bundle_scope::scope::Contexts;
use bundle_tree_ast::Module;
use bundle_tree_names::{Error, FileName, ModuleId};
use indexmap::IndexSet;
use std::alloc::{AllocError, Global};

/// The items of all modules that the entry of a linker reaches, as one module's, the body of the entry, in the order
/// in which they are to stand. A name that a module declares has its local context, a global 1, and any other name a
/// context from the next one on. The next context afterwards is above each that stands in them.
///
/// `prepared` holds the resolved items of each of these modules: names of the top have the local context, globals 1,
/// no two modules have another context in common, and nothing has the local context of another module. Where
/// `import.meta` stands in a module, the first of its items is the statement that holds it, whose name has a context of
/// its own, above 1 as those of the bindings inside are; it is taken over as it is. The caller sees to that, and that
/// the linker's check accepts the modules, and the next context is above all that there are.
///
/// Refused where contexts run out, where memory does, and by a fault that one of the modules has by itself. The
/// contexts are then unchanged. Of what is prepared so only memory and contexts are told, and contexts only where the
/// next one and the scopes and bindings of the modules and of what is added, counted together, are above 4294967295.
pub fn merge_into_entry<'a>(
    alloc: Global,
    linker: &Linker<'a>,
    prepared: &Modules,
    contexts: &mut Contexts,
) -> Result<Modules, Error>
    ensures merged { IfOk result (λ merged.
        (items : List (List Item)) × (merged ≡ Parts.parts_of (entry_of linker.now) items)) }
    ensures bundle { IfOk result (λ merged.
        (p : Program) (given : Answering) (its : ℕ → ModuleContexts) →
        IsMergeable p its linker.now →
        IsPrepared p (hooks_by given) its contexts.old.next prepared.now →
        IsMerged (λ x. x) (λ m. (its m).local) p (hooks_by given) (Parts.body_of merged)) }
    ensures given { OnOk result (HasGiven contexts.old contexts.new) }
    ensures below { IfOk result (λ merged.
        (p : Program) (given : Answering) (its : ℕ → ModuleContexts) →
        IsMergeable p its linker.now →
        IsPrepared p (hooks_by given) its contexts.old.next prepared.now →
        HasContextsBelow contexts.new.next (Parts.body_of merged)) }
    ensures refused { IfErr result (MayRefuseMerge contexts.old.file (modules_of linker.now)) }
    ensures told { IfErr result (λ refusal. (p : Program) (its : ℕ → ModuleContexts) →
        IsMergeable p its linker.now →
        IsLack contexts.old.file refusal
        ⊎ HasPreparedFault linker.now (Parts.in_order prepared.now) refusal) }
    ensures lacks { IfErr result (λ refusal.
        (p : Program) (given : Answering) (its : ℕ → ModuleContexts) →
        IsMergeable p its linker.now →
        IsPrepared p (hooks_by given) its contexts.old.next prepared.now →
        MayLack p (hooks_by given) contexts.old.file contexts.old.next refusal) }
    ensures unchanged { OnErr result (contexts.new ≡ contexts.old) }
{
    let places = places_of(alloc, merging::list(linker))?;
    let (module, next) = joined(alloc, linker, &places, prepared, contexts)?;
    let merged = Modules::from(alloc, merging::entry(linker), module)?;
    contexts.go_to(next);
    Ok(merged)
}

// The module that all modules make, and the next context behind it.
fn joined<'a>(
    alloc: Global,
    linker: &Linker<'a>,
    places: &IndexSet<ModuleId>,
    prepared: &Modules,
    contexts: &Contexts,
) -> Result<(Module, u32), Error>
    ensures given { IfOk result (λ made. contexts.now.next ≤ made.1) }
    ensures bundle { IfOk result (λ made.
        (p : Program) (given : Answering) (its : ℕ → ModuleContexts) →
        IsMergeable p its linker.now →
        IsPrepared p (hooks_by given) its contexts.now.next prepared.now →
        places.now.keys ≡ numbers_once (list_of linker.now) →
        IsMerged (λ x. x) (λ m. (its m).local) p (hooks_by given) (tree.joined_items (module_item_lists made.0))) }
    ensures below { IfOk result (λ made.
        (p : Program) (given : Answering) (its : ℕ → ModuleContexts) →
        IsMergeable p its linker.now →
        IsPrepared p (hooks_by given) its contexts.now.next prepared.now →
        places.now.keys ≡ numbers_once (list_of linker.now) →
        HasContextsBelow made.1 (tree.joined_items (module_item_lists made.0))) }
    ensures refused { IfErr result (MayRefuseMerge contexts.now.file (modules_of linker.now)) }
    ensures told { IfErr result (λ refusal. (p : Program) (its : ℕ → ModuleContexts) →
        IsMergeable p its linker.now →
        places.now.keys ≡ numbers_once (list_of linker.now) →
        IsLack contexts.now.file refusal
        ⊎ HasPreparedFault linker.now (Parts.in_order prepared.now) refusal) }
    ensures lacks { IfErr result (λ refusal.
        (p : Program) (given : Answering) (its : ℕ → ModuleContexts) →
        IsMergeable p its linker.now →
        IsPrepared p (hooks_by given) its contexts.now.next prepared.now →
        places.now.keys ≡ numbers_once (list_of linker.now) →
        MayLack p (hooks_by given) contexts.now.file contexts.now.next refusal) }
{
    let copies = copies_of(alloc, places, prepared)?;
    joined_of(alloc, linker, places, &copies, contexts)
}

// The same of copies of their items.
fn joined_of<'a>(
    alloc: Global,
    linker: &Linker<'a>,
    places: &IndexSet<ModuleId>,
    copies: &[Module],
    contexts: &Contexts,
) -> Result<(Module, u32), Error>
    ensures given { IfOk result (λ made. contexts.now.next ≤ made.1) }
    ensures bundle { IfOk result (λ made.
        (p : Program) (given : Answering) (its : ℕ → ModuleContexts) (prepared : Parts.Parts) →
        IsMergeable p its linker.now →
        IsPrepared p (hooks_by given) its contexts.now.next prepared →
        places.now.keys ≡ list_of linker.now →
        map module_item_lists copies.now
        ≡ items_of_each (Parts.in_order prepared) (list_of linker.now) →
        IsMerged (λ x. x) (λ m. (its m).local) p (hooks_by given) (tree.joined_items (module_item_lists made.0))) }
    ensures below { IfOk result (λ made.
        (p : Program) (given : Answering) (its : ℕ → ModuleContexts) (prepared : Parts.Parts) →
        IsMergeable p its linker.now →
        IsPrepared p (hooks_by given) its contexts.now.next prepared →
        places.now.keys ≡ list_of linker.now →
        map module_item_lists copies.now
        ≡ items_of_each (Parts.in_order prepared) (list_of linker.now) →
        HasContextsBelow made.1 (tree.joined_items (module_item_lists made.0))) }
    ensures refused { IfErr result (MayRefuseMerge contexts.now.file (modules_of linker.now)) }
    ensures told { IfErr result (λ refusal. (p : Program) (its : ℕ → ModuleContexts) →
        IsMergeable p its linker.now →
        length copies.now ≡ length (list_of linker.now) →
        IsLack contexts.now.file refusal
        ⊎ HasOwnFault linker.now (list_of linker.now) copies.now refusal) }
    ensures lacks { IfErr result (λ refusal.
        (p : Program) (given : Answering) (its : ℕ → ModuleContexts) (prepared : Parts.Parts) →
        IsMergeable p its linker.now →
        IsPrepared p (hooks_by given) its contexts.now.next prepared →
        places.now.keys ≡ list_of linker.now →
        map module_item_lists copies.now
        ≡ items_of_each (Parts.in_order prepared) (list_of linker.now) →
        MayLack p (hooks_by given) contexts.now.file contexts.now.next refusal) }
{
    let reads = read_all(alloc, linker, places, copies)?;
    match merged_of(alloc, linker, &reads, contexts.next()) {
        Ok(merged) => with_next(merged, contexts),
        Err(MergeError::OutOfMemory) => Err(Error::OutOfMemory),
        Err(MergeError::ContextsUsedUp { .. }) => Err(lack_of_contexts(contexts.file())?),
    }
}

// The modules on the linker's list, read from these items.
fn read_all<'a, 'x>(
    alloc: Global,
    linker: &Linker<'a>,
    places: &IndexSet<ModuleId>,
    copies: &'x [Module],
) -> Result<Vec<ReadModule<'x>>, Error>
    ensures refused { IfErr result (IsMergeRefusal (modules_of linker.now)) }
    ensures told { IfErr result (λ refusal.
        AreAllKnown linker.now (list_of linker.now) →
        length copies.now ≡ length (list_of linker.now) →
        IsRefusalOfRead linker.now (list_of linker.now) copies.now refusal) }
    ensures read { IfOk result (λ reads.
        AreAllKnown linker.now (list_of linker.now) →
        length copies.now ≡ length (list_of linker.now) →
        AreReadFrom linker.now places.now.keys (list_of linker.now) copies.now
        (length copies.now) reads.items) }
{
    let list = merging::list(linker);
    let external = merging::externals(linker)?;
    let mut reads = Vec::new(alloc);
    for (place, module) in copies.iter().enumerate() {
        if let Some(known) = module_at(linker, list, place) {
            reads.push(read_module(alloc, linker, known, places, &external, module)?)?;
        }
    }
    Ok(reads)
}

// The module at a place of a list.
fn module_at<'t, 'a>(
    linker: &'t Linker<'a>,
    list: &[ModuleId],
    place: usize,
) -> Option<&'t TransformedModule<'a>>
    ensures found { IfSome result (λ its. Contains (modules_of linker.now) its.now) }
    ensures known { (m : ℕ) (known : transformed.TransformedModule) →
        slice_get list.now place ≡ Some m → IsModuleKnown linker.now m known →
        option_map (λ its. its.now) result ≡ Some known }
{
    merging::module(linker, *list.get(place)?)
}

// What these modules are merged to, with contexts from the next one on.
fn merged_of<'a, 'x>(
    alloc: Global,
    linker: &Linker<'a>,
    reads: &[ReadModule<'x>],
    next: u32,
) -> Result<MergedModule, MergeError>
    ensures merged { IfOk result (λ merged. (p : Program) (given : Answering) (local : ℕ → ℕ) →
        AreReadIn p (hooks_by given) linker.now local next reads.now →
        IsMerged (λ x. x) local p (hooks_by given) (tree.joined_items (module_item_lists merged.tree))) }
    ensures below { IfOk result (λ merged. (p : Program) (given : Answering) (local : ℕ → ℕ) →
        AreReadIn p (hooks_by given) linker.now local next reads.now →
        HasContextsBelow (position merged.contexts) (tree.joined_items (module_item_lists merged.tree))) }
    ensures taken { IfOk result (λ merged. (p : Program) (given : Answering) (local : ℕ → ℕ) →
        AreReadIn p (hooks_by given) linker.now local next reads.now →
        position merged.contexts ≡ 4294967296 →
        NeedsTooManyContexts p (hooks_by given) next) }
    ensures refused { IfErr result (λ refusal. (p : Program) (given : Answering) (local : ℕ → ℕ) →
        AreReadIn p (hooks_by given) linker.now local next reads.now →
        MayLackNames p (hooks_by given) next refusal) }
{
    let plan = plan_of(
        alloc,
        merging::graph(linker),
        merging::entry(linker),
        merging::list(linker),
    )?;
    let linking = linking_of(alloc, linker, reads)?;
    merged_by(alloc, reads, &linking, &plan.blocks, next)
}

// What the names of these modules stand for.
fn linking_of<'a, 'x>(
    alloc: Global,
    linker: &Linker<'a>,
    reads: &[ReadModule<'x>],
) -> Result<Linking<'x>, AllocError>
    ensures { IfOk result (IsLinkedRead linker.now reads.now) }
{
    let modules = link_modules(alloc, reads)?;
    merging::linking_of(linker, &modules)
}

// The modules as they are linked.
fn link_modules<'t, 'x>(
    alloc: Global,
    reads: &'t [ReadModule<'x>],
) -> Result<Vec<LinkModule<'t, 'x>>, AllocError>
    ensures { IfOk result (λ links. AllZip IsLinkRead reads.entry.now links.items) }
{
    let mut modules = Vec::new(alloc);
    for read in reads {
        modules.push(read.link_module())?;
    }
    Ok(modules)
}

// The same, where this is what their names stand for, and these are their blocks.
fn merged_by<'x>(
    alloc: Global,
    reads: &[ReadModule<'x>],
    linking: &Linking<'x>,
    blocks: &[Block],
    next: u32,
) -> Result<MergedModule, MergeError>
    ensures made { IfOk result (IsMadeOfRead reads.now linking.now blocks.now next) }
    ensures refused { IfErr result (MayRefuseRead reads.now linking.now blocks.now next) }
{
    let parts = parts_of(alloc, reads)?;
    let bundle = BundleInput {
        parts: &parts,
        answers: &[],
        linking,
        blocks,
        contexts: Numbers::from_next(next),
    };
    merge_modules(alloc, &bundle)
}

// The modules as they are merged.
fn parts_of<'t, 'x>(
    alloc: Global,
    reads: &'t [ReadModule<'x>],
) -> Result<Vec<BundleModule<'t, 'x>>, AllocError>
    ensures { IfOk result (λ parts. AllZip IsPartRead reads.entry.now parts.items) }
{
    let mut parts = Vec::new(alloc);
    for read in reads {
        parts.push(read.part())?;
    }
    Ok(parts)
}

// The module of what was merged, and the next context.
fn with_next(merged: MergedModule, contexts: &Contexts) -> Result<(Module, u32), Error>
    ensures given { IfOk result (λ made. contexts.now.next ≤ made.1) }
    ensures above { IfOk result (λ made. position merged.contexts ≤ made.1) }
    ensures made { IfOk result (λ made. made.0 ≡ merged.tree) }
    ensures refused { IfErr result (IsLack contexts.now.file) }
    ensures after { IfErr result (IsLackAfter contexts.now.file merged.contexts) }
{
    match merged.contexts.next() {
        Some(next) => Ok((merged.tree, next.max(contexts.next()))),
        None => Err(lack_of_contexts(contexts.file())?),
    }
}

// That the contexts of a file do not suffice.
fn lack_of_contexts(file: &FileName) -> Result<Error, AllocError>
    ensures { IfOk result (IsUsedUp (name_of file.now)) }
{
    Ok(Error::ContextsUsedUp {
        file: file.clone()?,
    })
}
