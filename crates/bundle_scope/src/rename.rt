//! The items of a module, renamed.

ghost use Rattle.std.specs.Prelude.{◌≡◌, false, IfErr, IfOk, map, unwrap_or};
ghost use Rattle.std.specs.Map.{lookup};
ghost use Rattle.bundle_tree_listed.specs.Tree.{module_item_items};
ghost use Rattle.bundle_rules.specs.Rebuilds as rebuilds;
ghost use Rattle.bundle_rules.specs.Rebuilds.{ident_eq, renamed_all};
ghost use Rattle.bundle_tree_places.specs.Changes.{change_of};
ghost use Rattle.bundle_tree_places.specs.Marks.{ident_of};
ghost use Rattle.bundle_marks.specs.Idents.{ident_named};
ghost use Rattle.bundle_marks.specs.Composed.{items_list};
ghost use Rattle.bundle_marks.specs.Renamings.{unchanged};

use crate::listing::listing_of;
use bundle_marks::Renaming;
use bundle_tree::Id;
use bundle_tree_ast::ModuleItem;
use bundle_tree_names::{Error, SyntaxContext};
use bundle_tree_places::{Change, Name, OccurrenceRef};
use bundle_tree_rewrite::{rebuild_item, rebuild_items};
use std::alloc::{AllocError, Global};
use std::slice;

/// The items with each identifier that binds or refers renamed. What is short is spelled out where some step
/// of the renaming changed the symbol. Refused only where memory runs out.
pub fn rename_all(
    alloc: Global,
    items: &[ModuleItem],
    renaming: &Renaming,
) -> Result<Vec<ModuleItem>, Error>
    ensures renamed { IfOk result (λ made.
        items_list made.items ≡ renamed_all renaming.now (items_list items.now)) }
    ensures refused { IfErr result (λ refusal. refusal ≡ Error.OutOfMemory) }
{
    let listing = listing_of(alloc, items)?;
    let changes = changes_by(alloc, &listing.occurrences, renaming)?;
    Ok(rebuild_items(alloc, items, &changes)?)
}

/// One item with each identifier that binds or refers renamed, as `rename_all` does it. Refused only where memory
/// runs out.
pub fn rename_item(
    alloc: Global,
    item: &ModuleItem,
    renaming: &Renaming,
) -> Result<ModuleItem, AllocError>
    ensures { IfOk result (λ made.
        module_item_items 0 made ≡ renamed_all renaming.now (module_item_items 0 item.now)) }
{
    let listing = listing_of(alloc, slice::from_ref(item))?;
    let changes = changes_by(alloc, &listing.occurrences, renaming)?;
    rebuild_item(alloc, item, &changes)
}

// The changes of these occurrences to what they become. One text serves to ask for each of them.
fn changes_by<'a>(
    alloc: Global,
    listed: &[OccurrenceRef<'a>],
    renaming: &'a Renaming,
) -> Result<Vec<Change<'a>>, AllocError>
    ensures { IfOk result (λ changes.
        map change_of changes.items
        ≡ map (λ o. rebuilds.change_by renaming.now (ident_of o.id)) listed.now) }
{
    let mut changes = Vec::new(alloc);
    let mut text = String::new(alloc);
    for occurrence in listed {
        let old = occurrence.id;
        text.clear();
        text.push_str(old.sym)?;
        let id = Id::new(text, SyntaxContext::from_u32(old.ctxt));
        let change = change_by(renaming, &id, old);
        text = id.into_ident().sym;
        changes.push(change)?;
    }
    Ok(changes)
}

// The change of the identifier of this name.
fn change_by<'a>(renaming: &'a Renaming, id: &Id, ident: Name<'a>) -> Change<'a>
    ensures { change_of result
        ≡ unwrap_or (lookup (ident_eq (ident_named id.now)) renaming.now)
        (unchanged (ident_of ident.entry)) }
{
    match renaming.step(id) {
        Some(step) => Change {
            ident: Name {
                sym: step.to.sym(),
                ctxt: step.to.ctxt().as_u32(),
            },
            is_spelled_out: step.is_spelled_out,
        },
        None => Change {
            ident,
            is_spelled_out: false,
        },
    }
}
