//! The resolver: the contexts of a module tell apart what its names denote.

ghost use Rattle.std.specs.Prelude.{◌≡◌, IfErr, IfOk, None, OnErr, OnOk, map};
ghost use Rattle.bundle_syntax.specs.Item.{item_of};
ghost use Rattle.bundle_rules.specs.Doubled as Doubled;
ghost use Rattle.bundle_rules.specs.Rebuilds as rebuilds;
ghost use Rattle.bundle_tree_places.specs.Changes.{change_of};
ghost use Rattle.bundle_tree_places.specs.Marks.{ident_of};
ghost use Rattle.bundle_tree_names.specs.FileName.{name_of};
ghost use Rattle.bundle_scope_denote.specs.Kinds.{kind_as};
ghost use Rattle.bundle_marks.specs.Composed.{items_list};
ghost use Rattle.bundle_scope.specs.Contexts.{HasGiven};
ghost use Rattle.bundle_scope.specs.Faces.{in_contexts};
ghost use Rattle.bundle_scope.specs.Resolved.{IsScopeJudged, IsResolvedBy};
ghost use Rattle.bundle_scope.specs.Refusals.{IsDoubled, IsUsedUp, MayRefuse};

use crate::contexts::Contexts;
use crate::listing::listing_of;
use bundle_scope_denote::{ModuleKind, first_doubled};
use bundle_scope_names::{ContextsGiven, contexts_of};
use bundle_syntax::Piece;
use bundle_tree_ast::Module;
use bundle_tree_names::{Error, FileName};
use bundle_tree_places::{Change, Name, OccurrenceRef};
use bundle_tree_rewrite::rebuild_items;
use std::alloc::{AllocError, Global};

/// The module with contexts by which two of its identifiers are equal exactly where they denote one binding or
/// one global (ECMA-262, 8.2 and 9.1). The names of its top get the local context, globals 1, and each other
/// binding that occurs a number of its own, from the next one on; nothing else changes. The caller sees to it
/// that the local context is not 1, and that the next number is above it and above 1.
///
/// Refused where a name is declared that may not be declared there again, where the numbers do not suffice, and
/// for memory. The contexts are then unchanged.
pub fn resolve_scopes(
    alloc: Global,
    tree: &Module,
    kind: ModuleKind,
    contexts: &mut Contexts,
) -> Result<Module, Error>
    ensures resolved { IfOk result (λ made.
        IsResolvedBy (kind_as kind) contexts.old contexts.new (items_list tree.now.body.items)
        (items_list made.body.items)) }
    ensures undoubled { OnOk result
        (Doubled.first_doubled (kind_as kind) (items_list tree.now.body.items) ≡ None) }
    ensures given { OnOk result (HasGiven contexts.old contexts.new) }
    ensures refused { IfErr result
        (MayRefuse (kind_as kind) contexts.old (items_list tree.now.body.items)) }
    ensures unchanged { OnErr result (contexts.new ≡ contexts.old) }
{
    let items = tree.body.as_slice();
    let listing = listing_of(alloc, items)?;
    let resolution = judged(alloc, &listing.list, kind, contexts)?;
    let changes = changes_to(alloc, &listing.occurrences, &resolution.contexts)?;
    let body = rebuild_items(alloc, items, &changes)?;
    contexts.go_to(resolution.next);
    Ok(Module { body })
}

// The contexts for the occurrences of a list in which no name is doubled.
fn judged<'a>(
    alloc: Global,
    list: &[Piece<'a>],
    kind: ModuleKind,
    contexts: &Contexts,
) -> Result<ContextsGiven, Error>
    ensures judged { IfOk result (IsScopeJudged (kind_as kind) contexts.now (map item_of list.now)) }
    ensures refused { IfErr result (MayRefuse (kind_as kind) contexts.now (map item_of list.now)) }
{
    if let Some(doubled) = first_doubled(alloc, list, kind)? {
        return Err(doubled_fault(alloc, contexts.file(), doubled.name)?);
    }
    let local = contexts.local().as_u32();
    match contexts_of(alloc, list, kind, local, contexts.next())? {
        Some(resolution) => Ok(resolution),
        None => Err(lack_of_contexts(contexts.file())?),
    }
}

// That this file declares the name twice.
fn doubled_fault(alloc: Global, file: &FileName, name: &str) -> Result<Error, AllocError>
    ensures { IfOk result (IsDoubled (name_of file.now) name.now) }
{
    Ok(Error::DoubledDeclaration {
        file: file.clone()?,
        name: String::from_str(alloc, name)?,
    })
}

// That the contexts of this file do not suffice.
fn lack_of_contexts(file: &FileName) -> Result<Error, AllocError>
    ensures { IfOk result (IsUsedUp (name_of file.now)) }
{
    Ok(Error::ContextsUsedUp {
        file: file.clone()?,
    })
}

// The changes of these occurrences to the same symbols in these contexts, in turn.
fn changes_to<'a>(
    alloc: Global,
    occurrences: &[OccurrenceRef<'a>],
    contexts: &[u32],
) -> Result<Vec<Change<'a>>, AllocError>
    ensures { IfOk result (λ changes.
        map change_of changes.items
        ≡ rebuilds.changes_to (map (λ o. ident_of o.id) occurrences.now)
        (in_contexts (map (λ o. ident_of o.id) occurrences.now) contexts.now)) }
{
    let mut changes = Vec::new(alloc);
    for (occurrence, context) in occurrences.iter().zip(contexts) {
        changes.push(change_to(occurrence.id, *context))?;
    }
    Ok(changes)
}

// The same symbol in another context.
fn change_to<'a>(old: Name<'a>, context: u32) -> Change<'a>
    ensures { change_of result
        ≡ rebuilds.change_to (ident_of old.entry) ((ident_of old.entry).0, context) }
{
    Change {
        ident: Name {
            sym: old.sym,
            ctxt: context,
        },
        is_spelled_out: false,
    }
}
