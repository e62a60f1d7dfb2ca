//! All items as the entry's body, in order.

ghost use Rattle.std.specs.Prelude.{◌≡◌, ℕ, ◌<◌, ◌++◌, [], ◌∷◌, All, IfOk, IsPermutation, List, OnErr, OnOk, length, map, slice_index};
ghost use Rattle.std.specs.List.{AllZip, flat_map};
ghost use Rattle.bundle_tree_ast.specs.declared.module.ModuleItem.{ModuleItem};
ghost use Rattle.bundle_merge_modules.specs.Parts.{all_in_order as in_order_of};
ghost use Rattle.bundle_syntax.specs.Item.{Item, item_of};
ghost use Rattle.bundle_tree_listed.specs.Tree.{module_item_items};
ghost use Rattle.bundle_order.specs.Numbering.{owners_of};
ghost use Rattle.bundle_rules.specs.Parts.{in_order};
ghost use Rattle.bundle_rules.specs.Sorting.{IsSortedInto};
ghost use Rattle.bundle_merge_modules.specs.Held.{trees_of};
ghost use Rattle.bundle_merge_modules.specs.Placed.{IsAnyBlockPut, IsFitting, IsNewOrder, IsOrdered, IsBlockOrder, tree_at, trees_lent};
ghost use Rattle.bundle_merge_modules.specs.Sorted.{AreReached, IsSortedWhole};

use crate::Parts;
use crate::modules::Modules;
use bundle_order::{own_places, sorted_places};
use bundle_order_graph::graph::ModuleGraph;
use bundle_order_sort::{Block, Plan, plan_of};
use bundle_syntax::Piece;
use bundle_tree_ast::ModuleItem;
use bundle_tree_list::pieces;
use bundle_tree_names::ModuleId;
use std::alloc::{AllocError, Global};
use std::slice;

impl Modules {
    /// Makes all items the entry's body: those of the modules that it reaches, block by block, and behind them those of
    /// other modules as they stood. A module alone that does not request itself has its items in their order and then
    /// its free ones; the items of any other block are sorted. Refused only where memory runs out, and then nothing
    /// changes.
    pub fn sort(
        &mut self,
        alloc: Global,
        entry: ModuleId,
        graph: &ModuleGraph,
    ) -> Result<(), AllocError>
        ensures sorted { OnOk result
            (AreReached graph.now entry self.old →
            IsSortedInto graph.now entry self.old self.new) }
        ensures whole { OnOk result (IsSortedWhole graph.now entry self.old self.new) }
        ensures moved { OnOk result
            (IsPermutation (map (λ pair. pair.1) (in_order self.old))
            (map (λ pair. pair.1) (in_order self.new))) }
        ensures refused { OnErr result (self.new ≡ self.old) }
    {
        let order = new_order(alloc, &self.parts, entry, graph)?;
        self.parts.arrange(entry, &order)
    }
}

// The places of all items in the order in which they are to stand.
fn new_order(
    alloc: Global,
    parts: &Parts<ModuleItem>,
    entry: ModuleId,
    graph: &ModuleGraph,
) -> Result<Vec<usize>, AllocError>
    ensures { IfOk result (λ order.
        IsNewOrder graph.now entry (trees_of (in_order_of parts.now)) order.items) }
{
    let owners = owners_in(alloc, parts)?;
    let items = items_in(alloc, parts)?;
    let plan = plan_of(alloc, graph, entry, &owners)?;
    let order = order_by(alloc, &items, &plan)?;
    Ok(order)
}

// The module of each item.
fn owners_in(alloc: Global, parts: &Parts<ModuleItem>) -> Result<Vec<ModuleId>, AllocError>
    ensures { IfOk result (λ owners.
        owners.items ≡ map (λ pair. pair.0) (in_order_of parts.now)) }
{
    let mut owners = Vec::new(alloc);
    for (id, _) in parts.iter() {
        owners.push(id)?;
    }
    Ok(owners)
}

// The items.
fn items_in<'a>(
    alloc: Global,
    parts: &'a Parts<ModuleItem>,
) -> Result<Vec<&'a ModuleItem>, AllocError>
    ensures { IfOk result (λ items.
        map (λ item. item.now) items.items ≡ map (λ pair. pair.1) (in_order_of parts.now)) }
{
    let mut items = Vec::new(alloc);
    for (_, item) in parts.iter() {
        items.push(item)?;
    }
    Ok(items)
}

// The places of the items of each block in the order in which they are to stand, and then those that are left.
fn order_by<'a>(
    alloc: Global,
    items: &[&'a ModuleItem],
    plan: &Plan,
) -> Result<Vec<usize>, AllocError>
    requires { All (IsFitting (length items.now)) plan.now.blocks.items }
    ensures { IfOk result (λ order.
        (orders : List (List ℕ))
        × AllZip (IsAnyBlockPut (trees_lent items.now)) plan.now.blocks.items orders
        × (order.items ≡ flat_map (λ list. list) orders ++ plan.now.left.items)) }
{
    let mut order = Vec::new(alloc);
    for block in &plan.blocks {
        let places = block_places(alloc, items, block)?;
        order.extend_from_slice(&places)?;
    }
    order.extend_from_slice(&plan.left)?;
    Ok(order)
}

// The places of the items of a block in the order in which they are to stand.
fn block_places<'a>(
    alloc: Global,
    items: &[&'a ModuleItem],
    block: &Block,
) -> Result<Vec<usize>, AllocError>
    requires { IsFitting (length items.now) block.now }
    ensures { IfOk result (λ order. IsAnyBlockPut (trees_lent items.now) block.now order.items) }
{
    let lists = lists_at(alloc, items, &block.places)?;
    let order = order_in(alloc, &lists, block)?;
    let picked = picked(alloc, &block.places, &order)?;
    Ok(picked)
}

// The order of the items of a block, by their lists: a module's own, or else as they are sorted.
fn order_in<'a>(
    alloc: Global,
    lists: &[Vec<Piece<'a>>],
    block: &Block,
) -> Result<Vec<usize>, AllocError>
    requires { length block.now.numbers.items ≡ length lists.now }
    ensures { IfOk result (λ order.
        (items : List ModuleItem) (modules : List (List (List Item))) →
        map (λ v. map item_of v.items) lists.now ≡ map (module_item_items 0) items →
        map (module_item_items 0) items ≡ flat_map (λ items. items) modules →
        block.now.numbers.items ≡ owners_of 0 modules →
        IsOrdered block.now.is_cycle modules (map (module_item_items 0) items) order.items) }
{
    if block.is_cycle {
        let order = sorted_places(alloc, lists, &block.numbers)?;
        Ok(order)
    } else {
        let order = own_places(alloc, lists)?;
        Ok(order)
    }
}

// The lists of the items at these places.
fn lists_at<'a>(
    alloc: Global,
    items: &[&'a ModuleItem],
    places: &[usize],
) -> Result<Vec<Vec<Piece<'a>>>, AllocError>
    requires { All (λ place. place < length items.now) places.now }
    ensures { IfOk result (λ lists.
        map (λ v. map item_of v.items) lists.items
        ≡ map (tree_at (trees_lent items.now)) places.now) }
{
    let mut lists = Vec::new(alloc);
    for place in places {
        let list = list_of(alloc, items[*place])?;
        lists.push(list)?;
    }
    Ok(lists)
}

// The list of an item.
fn list_of<'a>(alloc: Global, item: &'a ModuleItem) -> Result<Vec<Piece<'a>>, AllocError>
    ensures { IfOk result (λ list. map item_of list.items ≡ module_item_items 0 item.now) }
{
    let list = pieces(alloc, slice::from_ref(item))?;
    Ok(list)
}

// The places that have these numbers.
fn picked(alloc: Global, places: &[usize], numbers: &[usize]) -> Result<Vec<usize>, AllocError>
    ensures { IfOk result (λ picked.
        All (λ n. n < length places.now) numbers.now →
        picked.items ≡ map (λ n. slice_index places.now n) numbers.now) }
{
    let mut picked = Vec::new(alloc);
    for number in numbers {
        picked.push(place_at(places, *number))?;
    }
    Ok(picked)
}

// The place that has a number.
fn place_at(places: &[usize], number: usize) -> usize
    ensures { result ≡ slice_index places.now number }
{
    match places.get(number) {
        Some(place) => *place,
        None => 0,
    }
}
