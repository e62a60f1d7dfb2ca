//! The module that the modules of an entry make.

ghost use Rattle.std.specs.Prelude.{◌≡◌, ℕ, IfErr, IfOk, IfSome, IsSome, List, None, Some, length, option_copied, slice_get, unwrap_or};
ghost use Rattle.std.specs.List.{AllZip};
ghost use Rattle.bundle_tree_names.specs.declared.file_name.FileName as names;
ghost use Rattle.bundle_tree_listed.specs.Tree.{module_items};
ghost use Rattle.bundle_rules.specs.Declarations.{BySymbol};
ghost use Rattle.bundle_rules.specs.Program as program;
ghost use Rattle.bundle_rules.specs.Scopes.{Cjs};
ghost use Rattle.bundle_scope_denote.specs.Listed.{IsDenotationTable};
ghost use Rattle.bundle_link_targets.specs.Linked.{IsLinkingOf};
ghost use Rattle.bundle_merge_theory.specs.made.Given.{all_fresh};
ghost use Rattle.bundle_merge_items.specs.Adds.{AreAnswered};
ghost use Rattle.bundler_entry.specs.Hook.{AreRead};
ghost use Rattle.bundler_entry.specs.Linked.{HasFiles, HasPlace, HasPlaces, IsCallOf, IsFileAt, IsLinkedEntry};
ghost use Rattle.bundler_entry.specs.Made.{IsRefusedMaking, answers_in};
ghost use Rattle.bundler_entry.specs.Merged.{IsMergedIn, TellsContexts};
ghost use Rattle.bundler_entry.specs.Parts.{AreBodies, AreEntryParts, IsAnswerRead, IsBodyAt, IsEntryPart};

use crate::call::{EntryCall, file_at, source_at};
use crate::linked::LinkedEntry;
use crate::meta::ReadMeta;
use crate::source::ReadFile;
use crate::unlinked::EntryError;
use bundle_link::Reached;
use bundle_link_targets::Linking;
use bundle_merge_items::{
    Answered, BundleInput, BundleModule, FreshContexts, MergeError, MergedModule, local_context,
    merge_modules,
};
use bundle_scope_denote::{Denotations, ModuleKind, Reading, denotations};
use bundle_tree_ast::Module;
use bundle_tree_list::pieces_of_module;
use bundle_tree_names::file_name::FileName;
use std::alloc::{AllocError, Global};
use std::collections::BTreeMap;

// What the names of each CommonJS module denote, read as the body of a function.
fn bodies_of<'p, 'x>(
    alloc: Global,
    call: &EntryCall<'p, 'x>,
    reached: &Reached,
    linking: &Linking<'x>,
) -> Result<Vec<Option<Denotations<'x>>>, AllocError>
    ensures { IfOk result (λ bodies. (q : program.Program) → IsLinkingOf q linking.now →
        AreBodies q call.now reached.now (length reached.now.places.items) bodies.items) }
{
    let mut bodies = Vec::new(alloc);
    for which in 0..reached.places.len() {
        bodies.push(body_at(alloc, call, reached, linking, which)?)?;
    }
    Ok(bodies)
}

// What the names of a module denote as the body of a function, where it is a CommonJS module.
fn body_at<'p, 'x>(
    alloc: Global,
    call: &EntryCall<'p, 'x>,
    reached: &Reached,
    linking: &Linking<'x>,
    which: usize,
) -> Result<Option<Denotations<'x>>, AllocError>
    ensures { IfOk result (λ body. (q : program.Program) → IsLinkingOf q linking.now →
        IsBodyAt q call.now reached.now which body) }
{
    if !linking.is_common_js(which) {
        return Ok(None);
    }
    match source_at(call, reached, which) {
        Some(source) => Ok(Some(body_of(alloc, source)?)),
        None => Ok(None),
    }
}

// What the names of a module denote, read as the body of a function.
fn body_of<'x>(alloc: Global, source: &ReadFile<'x>) -> Result<Denotations<'x>, AllocError>
    ensures { IfOk result (IsDenotationTable BySymbol Cjs (module_items 0 source.now.tree.now)) }
{
    let list = pieces_of_module(alloc, source.tree)?;
    denotations(alloc, list.as_slice(), ModuleKind::Cjs, Reading::BySymbol)
}

/// The module that all modules make, before it is finished, where this is what the hook answered, by their numbers.
pub fn made<'p, 'x, 'h>(
    alloc: Global,
    call: &EntryCall<'p, 'x>,
    linked: &LinkedEntry<'x>,
    metas: &[Option<ReadMeta<'h>>],
) -> Result<Module, EntryError>
    ensures made { IfOk result (λ made. (p : program.Program) (entry : ℕ) →
        IsCallOf p entry call.now → (its : IsLinkedEntry p call.now linked.now) →
        AreRead metas.now → AreAnswered its.links.places (all_fresh (answers_in metas.now)) →
        IsMergedIn its.links.places linked.now (answers_in metas.now) made) }
    ensures refused { IfErr result (λ unlinked. (p : program.Program) (entry : ℕ) →
        IsCallOf p entry call.now → (its : IsLinkedEntry p call.now linked.now) →
        AreRead metas.now → AreAnswered its.links.places (all_fresh (answers_in metas.now)) →
        IsRefusedMaking its.links.places call.now linked.now (answers_in metas.now) unlinked) }
{
    let (reached, linking) = (&linked.reached, &linked.linking);
    let bodies = bodies_of(alloc, call, reached, linking)?;
    let merged = merged_of(alloc, call, linked, bodies.as_slice(), metas)?;
    let MergedModule {
        tree,
        contexts: _contexts,
    } = merged;
    Ok(tree)
}

// The items that all modules make, where these are the names of the CommonJS ones.
fn merged_of<'t, 'p: 't, 'x, 'h>(
    alloc: Global,
    call: &EntryCall<'p, 'x>,
    linked: &'t LinkedEntry<'x>,
    bodies: &'t [Option<Denotations<'x>>],
    metas: &'t [Option<ReadMeta<'h>>],
) -> Result<MergedModule, EntryError>
    ensures merged { IfOk result (λ merged. (p : program.Program) (entry : ℕ) →
        IsCallOf p entry call.now → (its : IsLinkedEntry p call.now linked.now) →
        AreBodies its.links.places call.now linked.now.reached
        (length linked.now.reached.places.items) bodies.now →
        AreRead metas.now → AreAnswered its.links.places (all_fresh (answers_in metas.now)) →
        IsMergedIn its.links.places linked.now (answers_in metas.now) merged.tree) }
    ensures refused { IfErr result (λ unlinked. (p : program.Program) (entry : ℕ) →
        IsCallOf p entry call.now → (its : IsLinkedEntry p call.now linked.now) →
        AreBodies its.links.places call.now linked.now.reached
        (length linked.now.reached.places.items) bodies.now →
        AreRead metas.now → AreAnswered its.links.places (all_fresh (answers_in metas.now)) →
        IsRefusedMaking its.links.places call.now linked.now (answers_in metas.now) unlinked) }
{
    let parts = parts_of(alloc, call, &linked.reached, bodies)?;
    let answers = answers_of(alloc, metas)?;
    let bundle = BundleInput {
        parts: parts.as_slice(),
        answers: answers.as_slice(),
        linking: &linked.linking,
        blocks: linked.plan.blocks.as_slice(),
        contexts: FreshContexts::above(call.program.count),
    };
    match merge_modules(alloc, &bundle) {
        Ok(merged) => Ok(merged),
        Err(MergeError::OutOfMemory) => Err(EntryError::OutOfMemory),
        Err(MergeError::ContextsUsedUp { which }) => {
            Err(contexts_refusal(call, &linked.reached, which)?)
        }
    }
}

// The modules as they are merged.
fn parts_of<'t, 'p: 't, 'x>(
    alloc: Global,
    call: &EntryCall<'p, 'x>,
    reached: &'t Reached,
    bodies: &'t [Option<Denotations<'x>>],
) -> Result<Vec<BundleModule<'t, 'x>>, AllocError>
    ensures { IfOk result (λ parts.
        HasPlaces call.now.program.now.sources.items reached.entry.now
        (length reached.entry.now.leads.items) →
        HasFiles call.now reached.entry.now (length reached.entry.now.leads.items) →
        AreEntryParts call.now reached.entry.now bodies.entry.now
        (length reached.entry.now.leads.items) parts.items) }
{
    let mut parts = Vec::new(alloc);
    for (module, leads) in reached.leads.iter().enumerate() {
        if let Some(part) = part_of(call, reached, module, leads, bodies) {
            parts.push(part)?;
        }
    }
    Ok(parts)
}

// A module as it is merged with others.
fn part_of<'t, 'p: 't, 'x>(
    call: &EntryCall<'p, 'x>,
    reached: &Reached,
    which: usize,
    leads: &'t BTreeMap<String, usize>,
    bodies: &'t [Option<Denotations<'x>>],
) -> Option<BundleModule<'t, 'x>>
    ensures part { IfSome result (λ part.
        slice_get reached.now.leads.items which ≡ Some leads.entry.now →
        IsEntryPart call.now reached.now bodies.entry.now which part) }
    ensures there { HasPlace call.now.program.now.sources.items reached.now which →
        (file : names.FileName × ℕ) → IsFileAt call.now reached.now which file →
        IsSome result }
{
    let source = source_at(call, reached, which)?;
    let (_, id) = file_at(call, reached, which)?;
    let body = body_in(bodies, which);
    let denotations = names_of(&source.names, body);
    Some(BundleModule {
        items: source.tree.body.as_slice(),
        denotations,
        tables: &source.tables,
        leads,
        local: local_context(id.as_u32()),
        written: None,
    })
}

// What was found of a module, read as the body of a function.
fn body_in<'t, 'x>(
    bodies: &'t [Option<Denotations<'x>>],
    which: usize,
) -> Option<&'t Option<Denotations<'x>>>
    ensures { option_copied result ≡ slice_get bodies.entry.now which }
{
    bodies.get(which)
}

// What the names of a module denote: as in the body of a function, where that was read, or else these.
fn names_of<'t, 'x>(
    own: &'t Denotations<'x>,
    body: Option<&'t Option<Denotations<'x>>>,
) -> &'t Denotations<'x>
    ensures { result.now ≡ unwrap_or (unwrap_or (option_copied body.entry) None) own.entry.now }
{
    match body {
        Some(Some(names)) => names,
        Some(None) => own,
        None => own,
    }
}

// What the hook answered, as it is merged.
fn answers_of<'t, 'h>(
    alloc: Global,
    metas: &'t [Option<ReadMeta<'h>>],
) -> Result<Vec<Option<Answered<'t, 'h>>>, AllocError>
    ensures { IfOk result (λ answers. AllZip IsAnswerRead metas.entry.now answers.items) }
{
    let mut answers = Vec::new(alloc);
    for meta in metas {
        answers.push(answer_of(meta))?;
    }
    Ok(answers)
}

fn answer_of<'t, 'h>(meta: &'t Option<ReadMeta<'h>>) -> Option<Answered<'t, 'h>>
    ensures { IsAnswerRead meta.entry.now result }
{
    match meta {
        Some(meta) => Some(Answered {
            properties: meta.properties,
            pieces: meta.pieces.as_slice(),
            denotations: &meta.names,
        }),
        None => None,
    }
}

// The refusal where contexts run out for a module's names or, without one, for those of the linker's own, which stand
// in no file but the entry's.
fn contexts_refusal<'p, 'x>(
    call: &EntryCall<'p, 'x>,
    reached: &Reached,
    which: Option<usize>,
) -> Result<EntryError, AllocError>
    ensures { IfOk result (TellsContexts call.now reached.now which) }
{
    let file = file_told(call, reached, which).clone()?;
    Ok(EntryError::ContextsUsedUp { file })
}

// The file of a module or, without one, the entry's.
fn file_told<'p, 'x: 'p>(
    call: &EntryCall<'p, 'x>,
    reached: &Reached,
    which: Option<usize>,
) -> &'p FileName
    ensures of_module { (k : ℕ) (file : names.FileName × ℕ) → which ≡ Some k →
        IsFileAt call.now reached.now k file → result.now ≡ file.0 }
    ensures of_entry { which ≡ None → result.now ≡ call.now.entry.now }
{
    let Some(which) = which else {
        return call.entry;
    };
    match file_at(call, reached, which) {
        Some((file, _)) => file,
        None => call.entry,
    }
}
