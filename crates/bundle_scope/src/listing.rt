//! The list of the items of a module, with what occurs in it.

ghost use Rattle.std.specs.Prelude.{◌≡◌, IfOk, map};
ghost use Rattle.bundle_syntax.specs.Item.{item_of};
ghost use Rattle.bundle_rules.specs.Rebuilds.{listed};
ghost use Rattle.bundle_tree_places.specs.Marks.{listed_of};
ghost use Rattle.bundle_marks.specs.Composed.{items_list};

use bundle_syntax::Piece;
use bundle_tree_ast::ModuleItem;
use bundle_tree_list::pieces;
use bundle_tree_places::{OccurrenceRef, occurrences_of};
use std::alloc::{AllocError, Global};

/// The list of the items of a module, and its occurrences.
#[derive(Drop)]
pub(crate) struct Listing<'a> {
    pub(crate) list: Vec<Piece<'a>>,
    pub(crate) occurrences: Vec<OccurrenceRef<'a>>,
}

/// The list of these items.
pub(crate) fn listing_of<'a>(
    alloc: Global,
    items: &'a [ModuleItem],
) -> Result<Listing<'a>, AllocError>
    ensures list { IfOk result (λ it. map item_of it.list.items ≡ items_list items.now) }
    ensures occurrences { IfOk result (λ it.
        map listed_of it.occurrences.items ≡ listed (items_list items.now)) }
{
    let list = pieces(alloc, items)?;
    let occurrences = occurrences_of(alloc, &list)?;
    Ok(Listing { list, occurrences })
}
