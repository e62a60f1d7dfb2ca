//! The order of the items of one block, told by their places.

ghost use Rattle.std.specs.Prelude.{◌≡◌, IfOk, List, length, map};
ghost use Rattle.std.specs.List.{flat_map};
ghost use Rattle.bundle_tree_ast.specs.declared.module.ModuleItem.{ModuleItem};
ghost use Rattle.bundle_syntax.specs.Item.{Item, item_of};
ghost use Rattle.bundle_tree_listed.specs.Tree.{module_item_items};
ghost use Rattle.bundle_rules.specs.Order.{IsGoodOrder};
ghost use Rattle.bundle_rules.specs.Sorting.{flat, group_of_items};
ghost use Rattle.bundle_order.specs.Numbering.{IsOwnOrder, IsSortedBy, owners_of};
ghost use Rattle.bundle_order.specs.Owned.{AreTogether};

use crate::group::{group_at, group_of, lists_of};
use crate::number::{ats_of, places_by, places_of};
use bundle_order_sort::sort_shared;
use bundle_syntax::Piece;
use bundle_tree_ast::ModuleItem;
use std::alloc::{AllocError, Global};

/// The places of the items of several modules in the order in which they are to stand, where these are their lists and
/// the numbers of their modules, which ascend. Refused only where memory runs out.
pub fn sorted_places<'a>(
    alloc: Global,
    lists: &[Vec<Piece<'a>>],
    owners: &[usize],
) -> Result<Vec<usize>, AllocError>
    requires { length owners.now ≡ length lists.now }
    ensures { IfOk result (λ order.
        (items : List ModuleItem) (modules : List (List (List Item))) →
        map (λ v. map item_of v.items) lists.now ≡ map (module_item_items 0) items →
        map (module_item_items 0) items ≡ flat_map (λ items. items) modules →
        owners.now ≡ owners_of 0 modules →
        IsSortedBy modules (map (module_item_items 0) items) order.items) }
{
    let places = places_of(alloc, lists, owners)?;
    let group = group_at(alloc, lists, &places)?;
    let found = group.references(alloc)?;
    let (needs, bindings) = found;
    let numbers = sort_shared(alloc, &needs, bindings)?;
    let order = places_by(alloc, &places, &numbers)?;
    Ok(order)
}

/// The numbers of items in the order in which they are to stand, where each is of the module that is told, or free. The
/// caller sees to it that the items of a module stand together. Refused only where memory runs out.
pub fn sorted_numbers(
    alloc: Global,
    items: &[ModuleItem],
    owners: &[Option<usize>],
) -> Result<Vec<usize>, AllocError>
    ensures { IfOk result (λ order.
        length owners.now ≡ length items.now →
        AreTogether owners.now →
        IsGoodOrder (group_of_items (flat (map (module_item_items 0) items.now)) owners.now)
        order.items) }
{
    let lists = lists_of(alloc, items)?;
    let group = group_of(alloc, &lists, owners)?;
    let found = group.references(alloc)?;
    let (needs, bindings) = found;
    let order = sort_shared(alloc, &needs, bindings)?;
    Ok(order)
}

/// The places of the items of one module in their order, and then those of the free ones, where these are their lists.
/// Refused only where memory runs out.
pub fn own_places<'a>(alloc: Global, lists: &[Vec<Piece<'a>>]) -> Result<Vec<usize>, AllocError>
    ensures { IfOk result (λ order.
        IsOwnOrder (map (λ v. map item_of v.items) lists.now) order.items) }
{
    let owners = vec![in alloc; 0usize; lists.len()]?;
    let places = places_of(alloc, lists, &owners)?;
    let order = ats_of(alloc, &places)?;
    Ok(order)
}
