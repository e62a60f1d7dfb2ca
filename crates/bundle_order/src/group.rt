//! Items that are to stand in one order: their list as that of a module, and where each stands in it.

ghost use Rattle.std.specs.Prelude.{◌≡◌, ℕ, ◌+◌, ◌<◌, ◌++◌, ◌∷◌, [], All, IfOk, List, OnOk, Option, length, map, slice_get, slice_range, unwrap_or};
ghost use Rattle.bundle_syntax.specs.Item.{Item, item_of};
ghost use Rattle.bundle_tree_listed.specs.Tree.{module_item_items};
ghost use Rattle.bundle_order.specs.Found.{AreFound, AreReferences};
ghost use Rattle.bundle_order.specs.Cut.{dependencies_of, references_of};
ghost use Rattle.bundle_order.specs.Grouped.{IsGroup, group_placed};
ghost use Rattle.bundle_order.specs.Numbering.{numbered_at};
ghost use Rattle.bundle_order.specs.Owned.{item_owner};

use crate::number::ItemPlace;
use crate::{ItemRange, dependencies, references};
use bundle_order_sort::{SharedItem, SortItem};
use bundle_scope_denote::{ModuleKind, Reading, denotations};
use bundle_syntax::{Node, Piece};
use bundle_tree_ast::ModuleItem;
use bundle_tree_list::pieces;
use std::alloc::{AllocError, Global};

/// The list of a module with the items that were added, without its end, and where each stands.
#[derive(Drop)]
pub(crate) struct Group<'a> {
    list: Vec<Piece<'a>>,
    ranges: Vec<ItemRange>,
}

impl<'a> Group<'a> {
    /// No items.
    pub(crate) fn new(alloc: Global) -> Result<Group<'a>, AllocError>
        ensures ranges { IfOk result (λ group. group.ranges.items ≡ []) }
        ensures group { IfOk result (λ group. IsGroup group [] []) }
    {
        let mut list = Vec::new(alloc);
        list.push(Piece::Open {
            field: 0,
            node: Node::Module,
        })?;
        Ok(Group {
            list,
            ranges: Vec::new(alloc),
        })
    }

    /// Adds an item, which has this list: one of a module, or a free one.
    pub(crate) fn add(&mut self, item: &[Piece<'a>], owner: Option<usize>) -> Result<(), AllocError>
        ensures len { OnOk result
            (length self.new.ranges.items ≡ length self.old.ranges.items + 1) }
        ensures group { OnOk result
            ((lists : List (List Item)) (owners : List (Option ℕ)) →
            IsGroup self.old lists owners →
            IsGroup self.new (lists ++ map item_of item.now ∷ []) (owners ++ owner ∷ [])) }
    {
        let from = self.list.len();
        self.list.extend_from_slice(item)?;
        self.ranges.push(ItemRange {
            from,
            to: self.list.len(),
            which: owner.unwrap_or(0),
            is_free: owner.is_none(),
        })?;
        Ok(())
    }

    /// What the items depend on.
    pub(crate) fn dependencies(mut self, alloc: Global) -> Result<Vec<SortItem>, AllocError>
        ensures len { IfOk result (λ items.
            length items.items ≡ length self.entry.ranges.items) }
        ensures found { IfOk result (λ items.
            (lists : List (List Item)) (owners : List (Option ℕ)) →
            IsGroup self.entry lists owners →
            AreFound (group_placed lists owners) (map dependencies_of items.items)) }
    {
        self.list.push(Piece::Close)?;
        let table = denotations(alloc, &self.list, ModuleKind::Es, Reading::ByContext)?;
        let sorted = dependencies(alloc, &self.list, &table, 0, &self.ranges)?;
        Ok(sorted)
    }

    /// The items with the bindings to which they refer, and for each binding the items that declare it or set it up.
    pub(crate) fn references(
        mut self,
        alloc: Global,
    ) -> Result<(Vec<SharedItem>, Vec<Vec<usize>>), AllocError>
        ensures owned { IfOk result (λ shared.
            (lists : List (List Item)) (owners : List (Option ℕ)) →
            IsGroup self.entry lists owners → map item_owner shared.0.items ≡ owners) }
        ensures found { IfOk result (λ shared.
            (lists : List (List Item)) (owners : List (Option ℕ)) →
            IsGroup self.entry lists owners →
            AreReferences (group_placed lists owners) (map references_of shared.0.items)
            (map (λ v. v.items) shared.1.items)) }
    {
        self.list.push(Piece::Close)?;
        let table = denotations(alloc, &self.list, ModuleKind::Es, Reading::ByContext)?;
        let shared = references(alloc, &self.list, &table, 0, &self.ranges)?;
        Ok(shared)
    }
}

/// The items at these places, each with its module.
pub(crate) fn group_at<'a>(
    alloc: Global,
    lists: &[Vec<Piece<'a>>],
    places: &[ItemPlace],
) -> Result<Group<'a>, AllocError>
    requires { All (λ place. place.at < length lists.now) places.now }
    ensures { IfOk result (λ group.
        let numbered = map (numbered_at (map (λ v. map item_of v.items) lists.now)) places.now in
        IsGroup group (map (λ one. one.0) numbered) (map (λ one. one.1) numbered)) }
{
    let mut group = Group::new(alloc)?;
    for place in places {
        group.add(&lists[place.at], place.owner)?;
    }
    Ok(group)
}

/// The items with these lists, each of the module that is told, or free.
pub(crate) fn group_of<'a>(
    alloc: Global,
    lists: &[Vec<Piece<'a>>],
    owners: &[Option<usize>],
) -> Result<Group<'a>, AllocError>
    ensures { IfOk result (λ group.
        length owners.now ≡ length lists.now →
        IsGroup group (map (λ v. map item_of v.items) lists.now) owners.now) }
{
    let mut group = Group::new(alloc)?;
    for (number, list) in lists.iter().enumerate() {
        group.add(list, owner_at(owners, number))?;
    }
    Ok(group)
}

// The module of the item with this number. Where none is told, it is free.
fn owner_at(owners: &[Option<usize>], number: usize) -> Option<usize>
    ensures { result ≡ unwrap_or (slice_get owners.now number) None }
{
    owners.get(number).copied().unwrap_or(None)
}

/// The list of each of these items.
pub(crate) fn lists_of<'a>(
    alloc: Global,
    items: &'a [ModuleItem],
) -> Result<Vec<Vec<Piece<'a>>>, AllocError>
    ensures len { IfOk result (λ lists. length lists.items ≡ length items.now) }
    ensures lists { IfOk result (λ lists.
        map (λ v. map item_of v.items) lists.items ≡ map (module_item_items 0) items.now) }
{
    let mut lists = Vec::new(alloc);
    for place in 0..items.len() {
        let list = list_of(alloc, items, place)?;
        lists.push(list)?;
    }
    Ok(lists)
}

// The list of the item at a place.
fn list_of<'a>(
    alloc: Global,
    items: &'a [ModuleItem],
    place: usize,
) -> Result<Vec<Piece<'a>>, AllocError>
    requires { place < length items.now }
    ensures { IfOk result (λ list.
        map item_of list.items ∷ []
        ≡ map (module_item_items 0) (slice_range items.now place (place + 1))) }
{
    let one = &items[place..place + 1];
    let list = pieces(alloc, one)?;
    Ok(list)
}
