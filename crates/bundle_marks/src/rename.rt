//! The items of a module with each identifier another, in turn or by a map. What is short is spelled out
//! where a symbol changes.

ghost use Rattle.std.specs.Prelude.{◌≡◌, IfOk, map, unwrap_or};
ghost use Rattle.std.specs.List.{flat_map};
ghost use Rattle.std.specs.Map.{lookup};
ghost use Rattle.bundle_tree_listed.specs.Tree.{module_item_items};
ghost use Rattle.bundle_rules.specs.Rebuilds as rebuilds;
ghost use Rattle.bundle_rules.specs.Rebuilds.{becomes_by, changes_to, ident_eq, renamed_by};
ghost use Rattle.bundle_tree_places.specs.Changes.{change_of};
ghost use Rattle.bundle_tree_places.specs.Marks.{ident_of};
ghost use Rattle.bundle_marks.specs.Idents.{tree_ident, ident_named, pair_named};

use crate::items::lent_occurrences;
use bundle_tree::Id;
use bundle_tree_ast::{Ident, ModuleItem};
use bundle_tree_names::SyntaxContext;
use bundle_tree_places::{Change, Name, OccurrenceRef};
use bundle_tree_rewrite::rebuild_items;
use std::alloc::{AllocError, Global};
use std::collections::BTreeMap;

/// The items with these identifiers at their occurrences in turn; nothing else changes but what is spelled
/// out: a shorthand of an object literal or a pattern, and an import or export specifier of one name, where
/// the symbol changes (ECMA-262, 13.2.5, 14.3.3, 16.2.2 and 16.2.3). The caller hands in one for each; an
/// occurrence for which there is none stays. Refused only where memory runs out.
pub fn with_idents(
    alloc: Global,
    items: &[ModuleItem],
    idents: &[Ident],
) -> Result<Vec<ModuleItem>, AllocError>
    ensures { IfOk result (λ made.
        flat_map (module_item_items 0) made.items
        ≡ rebuilds.with_idents (flat_map (module_item_items 0) items.now)
        (map tree_ident idents.now)) }
{
    let listed = lent_occurrences(alloc, items)?;
    let changes = changes_between(alloc, &listed, idents)?;
    rebuild_items(alloc, items, &changes)
}

/// The items with each identifier that binds or refers mapped; one that is not in the map stays, and keys and
/// exported names stay, since what is short is spelled out where the symbol changes. Refused only where memory
/// runs out.
pub fn rename_ids<'a>(
    alloc: Global,
    items: &'a [ModuleItem],
    renaming: &'a BTreeMap<Id, Id>,
) -> Result<Vec<ModuleItem>, AllocError>
    ensures { IfOk result (λ made.
        flat_map (module_item_items 0) made.items
        ≡ renamed_by (map pair_named renaming.now.entries)
        (flat_map (module_item_items 0) items.now)) }
{
    let listed = lent_occurrences(alloc, items)?;
    let changes = changes_by(alloc, &listed, renaming)?;
    rebuild_items(alloc, items, &changes)
}

// The changes of these occurrences to these identifiers in turn.
fn changes_between<'a, 'b>(
    alloc: Global,
    listed: &[OccurrenceRef<'a>],
    idents: &'b [Ident],
) -> Result<Vec<Change<'b>>, AllocError>
    ensures { IfOk result (λ changes.
        map change_of changes.items
        ≡ changes_to (map (λ o. ident_of o.id) listed.now) (map tree_ident idents.now)) }
{
    let mut changes = Vec::new(alloc);
    for (old, new) in listed.iter().zip(idents) {
        let ident = Name {
            sym: new.sym.as_str(),
            ctxt: new.ctxt.as_u32(),
        };
        changes.push(Change {
            ident,
            is_spelled_out: old.id.sym != ident.sym,
        })?;
    }
    Ok(changes)
}

// The changes of these occurrences to what they become. One text serves to ask the map for each of them.
fn changes_by<'a>(
    alloc: Global,
    listed: &[OccurrenceRef<'a>],
    renaming: &'a BTreeMap<Id, Id>,
) -> Result<Vec<Change<'a>>, AllocError>
    ensures { IfOk result (λ changes.
        map change_of changes.items
        ≡ map
        (λ o.
        rebuilds.change_to (ident_of o.id)
        (becomes_by (map pair_named renaming.now.entries) (ident_of o.id)))
        listed.now) }
{
    let mut changes = Vec::new(alloc);
    let mut text = String::new(alloc);
    for occurrence in listed {
        let old = occurrence.id;
        text.clear();
        text.push_str(old.sym)?;
        let id = Id::new(text, SyntaxContext::from_u32(old.ctxt));
        let ident = becomes(renaming, &id, old);
        text = id.into_ident().sym;
        changes.push(Change {
            ident,
            is_spelled_out: old.sym != ident.sym,
        })?;
    }
    Ok(changes)
}

// What the identifier of this name becomes.
fn becomes<'a>(renaming: &'a BTreeMap<Id, Id>, id: &Id, ident: Name<'a>) -> Name<'a>
    ensures { ident_of result
        ≡ unwrap_or (lookup (ident_eq (ident_named id.now)) (map pair_named renaming.now.entries))
        (ident_of ident.entry) }
{
    match renaming.get(id) {
        Some(new) => Name {
            sym: new.sym(),
            ctxt: new.ctxt().as_u32(),
        },
        None => ident,
    }
}
