//! The dependencies between the items of a block.

ghost use Rattle.std.specs.Prelude.{◌≡◌, IfOk, List, length, map};
ghost use Rattle.bundle_syntax.specs.Item.{Item, item_of};
ghost use Rattle.bundle_rules.specs.Scopes.{Es, Top};
ghost use Rattle.bundle_rules.specs.Declarations.{ByContext};
ghost use Rattle.bundle_rules.specs.Order.{group_of};
ghost use Rattle.bundle_rules.specs.Parts.{tree_of_items};
ghost use Rattle.bundle_rules.specs.Sorting.{group_of_items};
ghost use Rattle.bundle_rules.specs.Statements.{top_items};
ghost use Rattle.bundle_scope_denote.specs.Listed.{IsOnlyTop, IsDenotationTable};
ghost use Rattle.bundle_order.specs.Found.{AreFound, AreReferences};
ghost use Rattle.bundle_order.specs.Cut.{cut_items, dependencies_of, references_of};
ghost use Rattle.bundle_order.specs.Owners as Owners;
ghost use Rattle.bundle_order.specs.Owners.{range_owner, shared_owner_of, sorted_owner_of};

use crate::dependencies_among;
use crate::depends::references_among;
use crate::walk::seen_in;
use bundle_order_sort::{Dependency, Reference, SharedItem, SortItem};
use bundle_scope_denote::Denotations;
use bundle_syntax::Piece;
use std::alloc::{AllocError, Global};

/// An item: the pieces from..to of the list, and its module. Free items belong to none.
#[derive(Clone, Copy, PartialEq, Eq, Debug)]
pub struct ItemRange {
    pub from: usize,
    pub to: usize,
    pub which: usize,
    pub is_free: bool,
}

/// The items with what they depend on, ascending and each once. The items do not overlap, and `top` is the
/// number of the scope of the top bindings in the denotations of this list, read by symbol and context.
///
/// An item depends on another where it has a reference to a top binding that the other declares or sets up. The
/// dependency is weak where the item is not free and every such reference lies in a function, its parameters
/// included, or in what a field of an instance starts with. Refused only where memory runs out.
pub fn dependencies<'a>(
    alloc: Global,
    pieces: &[Piece<'a>],
    denotations: &Denotations<'a>,
    top: usize,
    items: &[ItemRange],
) -> Result<Vec<SortItem>, AllocError>
    ensures owners { IfOk result (λ sorted.
        map sorted_owner_of sorted.items ≡ map range_owner items.now) }
    ensures found { IfOk result (λ sorted.
        IsDenotationTable ByContext Es (map item_of pieces.now) denotations.now →
        IsOnlyTop denotations.now top →
        AreFound
        (group_of ByContext Top (map item_of pieces.now)
        (cut_items (map item_of pieces.now) items.now) (map Owners.range_module items.now))
        (map dependencies_of sorted.items)) }
    ensures whole { IfOk result (λ sorted.
        (all : List Item) →
        map item_of pieces.now ≡ tree_of_items all →
        cut_items (map item_of pieces.now) items.now ≡ top_items (map item_of pieces.now) →
        IsDenotationTable ByContext Es (map item_of pieces.now) denotations.now →
        IsOnlyTop denotations.now top →
        AreFound (group_of_items all (map Owners.range_module items.now))
        (map dependencies_of sorted.items)) }
{
    let seen = seen_in(alloc, pieces, denotations, top, items)?;
    let owners = owners_of(alloc, items)?;
    let found = dependencies_among(alloc, &seen, &owners, denotations.bindings.len())?;
    let sorted = sort_items(alloc, items, &found)?;
    Ok(sorted)
}

// The module of each item, or none.
fn owners_of(alloc: Global, items: &[ItemRange]) -> Result<Vec<Option<usize>>, AllocError>
    ensures { IfOk result (λ owners. owners.items ≡ map Owners.range_module items.now) }
{
    let mut owners = Vec::new(alloc);
    for item in items {
        owners.push(module_of(*item))?;
    }
    Ok(owners)
}

// The module of an item, or none where it is free.
fn module_of(item: ItemRange) -> Option<usize>
    ensures { result ≡ Owners.range_module item }
{
    if item.is_free { None } else { Some(item.which) }
}

// The items with these dependencies.
fn sort_items(
    alloc: Global,
    items: &[ItemRange],
    found: &[Vec<Dependency>],
) -> Result<Vec<SortItem>, AllocError>
    requires { length found.now ≡ length items.now }
    ensures owners { IfOk result (λ sorted.
        map sorted_owner_of sorted.items ≡ map range_owner items.now) }
    ensures found { IfOk result (λ sorted.
        map dependencies_of sorted.items ≡ map (λ v. v.items) found.now) }
{
    let mut sorted = Vec::new(alloc);
    for (number, item) in items.iter().enumerate() {
        sorted.push(SortItem {
            which: item.which,
            is_free: item.is_free,
            dependencies: Vec::from_slice(alloc, &found[number])?,
        })?;
    }
    Ok(sorted)
}

/// The items with the bindings to which they refer, and for each binding the items that declare it or set it up. The
/// items do not overlap, and `top` is the number of the scope of the top bindings in the denotations of this list,
/// read by symbol and context.
///
/// An item depends on another where it has a reference to a top binding that the other declares or sets up. The
/// dependency is weak where the item is not free and every such reference lies in a function, its parameters
/// included, or in what a field of an instance starts with. Refused only where memory runs out.
pub fn references<'a>(
    alloc: Global,
    pieces: &[Piece<'a>],
    denotations: &Denotations<'a>,
    top: usize,
    items: &[ItemRange],
) -> Result<(Vec<SharedItem>, Vec<Vec<usize>>), AllocError>
    ensures owners { IfOk result (λ shared.
        map shared_owner_of shared.0.items ≡ map range_owner items.now) }
    ensures found { IfOk result (λ shared.
        IsDenotationTable ByContext Es (map item_of pieces.now) denotations.now →
        IsOnlyTop denotations.now top →
        AreReferences
        (group_of ByContext Top (map item_of pieces.now)
        (cut_items (map item_of pieces.now) items.now) (map Owners.range_module items.now))
        (map references_of shared.0.items) (map (λ v. v.items) shared.1.items)) }
{
    let seen = seen_in(alloc, pieces, denotations, top, items)?;
    let owners = owners_of(alloc, items)?;
    let found = references_among(alloc, &seen, &owners, denotations.bindings.len())?;
    let (references, lists) = found;
    let shared = shared_items(alloc, items, &references)?;
    Ok((shared, lists))
}

// The items with these references.
fn shared_items(
    alloc: Global,
    items: &[ItemRange],
    found: &[Vec<Reference>],
) -> Result<Vec<SharedItem>, AllocError>
    requires { length found.now ≡ length items.now }
    ensures owners { IfOk result (λ shared.
        map shared_owner_of shared.items ≡ map range_owner items.now) }
    ensures found { IfOk result (λ shared.
        map references_of shared.items ≡ map (λ v. v.items) found.now) }
{
    let mut shared = Vec::new(alloc);
    for (number, item) in items.iter().enumerate() {
        shared.push(SharedItem {
            which: item.which,
            is_free: item.is_free,
            references: Vec::from_slice(alloc, &found[number])?,
        })?;
    }
    Ok(shared)
}
