//! The blocks in their order, each with the places of its items.

ghost use Rattle.std.specs.Prelude.{◌≡◌, ℕ, ◌++◌, ◌<◌, nat_eq, IfOk, IsTrue, List, OnOk, length, map, slice_index_or, [], ◌∷◌};
ghost use Rattle.bundle_order_graph.specs.Order.{IsOrder};
ghost use Rattle.std.specs.List.{AllZip, IsDistinct};
ghost use Rattle.bundle_order_sort.specs.Places.{is_list_end, is_in_some, left_of};
ghost use Rattle.bundle_order_sort.specs.Merged.{ends_list_at, merged};
ghost use Rattle.bundle_order_sort.specs.Plan.{IsBlock, IsOwnBlock, IsPlanAsked, IsPlanOf, IsPlanOfEach};
ghost use Rattle.bundle_order_sort.specs.Rows.{AreRows};

use crate::table::{Table, add_all, all_of, table_of};
use bundle_order_graph::graph::{ModuleGraph, cycles_on, order};
use bundle_tree_names::ModuleId;
use indexmap::IndexSet;
use std::alloc::{AllocError, Global};

/// A block: the places of the items of its modules, module by module, and for each of them the number of its module
/// in the block.
#[derive(Drop)]
pub struct Block {
    pub places: Vec<usize>,
    pub numbers: Vec<usize>,
    /// Whether it is of several modules, or of one that requests itself.
    pub is_cycle: bool,
}

/// The blocks in their order, and the places of the items that are in none.
#[derive(Drop)]
pub struct Plan {
    pub blocks: Vec<Block>,
    pub left: Vec<usize>,
}

/// The blocks of all modules that the entry reaches, in the order of their last members in its list, where these are
/// the modules of all items. The items of modules that it does not reach are left.
pub fn plan_of(
    alloc: Global,
    graph: &ModuleGraph,
    entry: ModuleId,
    owners: &[ModuleId],
) -> Result<Plan, AllocError>
    ensures { IfOk result (λ plan. IsPlanOf graph.now entry owners.now plan) }
{
    let list = order(alloc, graph, entry)?;
    plan_on(alloc, graph, &list, owners)
}

// The same, where this is the list of the modules that the entry reaches.
fn plan_on(
    alloc: Global,
    graph: &ModuleGraph,
    list: &[ModuleId],
    owners: &[ModuleId],
) -> Result<Plan, AllocError>
    requires { IsDistinct nat_eq list.now }
    ensures { IfOk result (λ plan. (entry : ℕ) →
        IsOrder graph.now entry list.now → IsPlanOf graph.now entry owners.now plan) }
{
    let cycles = cycles_on(alloc, graph, list)?;
    let table = table_of(alloc, owners)?;
    let blocks = blocks_of(alloc, list, &cycles, &table)?;
    let left = left_places(alloc, list, owners)?;
    Ok(Plan { blocks, left })
}

/// The blocks of the modules that an entry reaches, where this is their list, as `order` gives it: those of `plan_of`,
/// or where modules stand in the standard's order (ECMA-262, 16.2.1.5.2), each module in a block of its own. Refused only
/// where memory runs out.
pub fn plan_asked(
    alloc: Global,
    graph: &ModuleGraph,
    list: &[ModuleId],
    in_standard_order: bool,
) -> Result<Plan, AllocError>
    requires { IsDistinct nat_eq list.now }
    ensures { IfOk result (λ plan. (entry : ℕ) →
        IsOrder graph.now entry list.now →
        IsPlanAsked in_standard_order graph.now entry list.now plan) }
{
    if in_standard_order {
        plan_of_each(alloc, list.len())
    } else {
        plan_on(alloc, graph, list, list)
    }
}

// So many items, each in a block of its own, in their order; none is left.
#[tactic(auto, using(crate::proofs::EachLemmas::each_more))]
fn plan_of_each(alloc: Global, count: usize) -> Result<Plan, AllocError>
    ensures { IfOk result (λ plan. IsPlanOfEach count plan) }
{
    let mut blocks = Vec::new(alloc);
    for place in 0..count {
        blocks.push(own_block(alloc, place)?)?;
    }
    let left = Vec::new(alloc);
    Ok(Plan { blocks, left })
}

// The block of the item at a place alone.
fn own_block(alloc: Global, place: usize) -> Result<Block, AllocError>
    ensures { IfOk result (λ block. IsOwnBlock place block) }
{
    let mut places = Vec::new(alloc);
    places.push(place)?;
    let mut numbers = Vec::new(alloc);
    numbers.push(0)?;
    Ok(Block {
        places,
        numbers,
        is_cycle: false,
    })
}

// The blocks of a list of modules, of which these are the cycles: each cycle where its last member stands, and each
// module of none by itself.
fn blocks_of(
    alloc: Global,
    list: &[ModuleId],
    cycles: &[Vec<ModuleId>],
    table: &Table,
) -> Result<Vec<Block>, AllocError>
    ensures { IfOk result (λ blocks.
        (owners : List ℕ) →
        AreRows table.now owners →
        AllZip (IsBlock owners)
        (merged (λ m. is_in_some m (map (λ v. v.items) cycles.now)) list.now
        (map (λ v. v.items) cycles.now))
        blocks.items) }
{
    let on_cycles = all_of(alloc, cycles)?;
    let mut blocks = Vec::new(alloc);
    let mut next = 0usize;
    for (at, id) in list.iter().enumerate() {
        if !on_cycles.contains(id) {
            let block = block_of(alloc, table, &list[at..at + 1], false)?;
            blocks.push(block)?;
        } else if ends_next(cycles, next, *id) {
            let block = block_of(alloc, table, &cycles[next], true)?;
            blocks.push(block)?;
            next += 1;
        }
    }
    Ok(blocks)
}

// Whether a module is the last of the next cycle.
fn ends_next(cycles: &[Vec<ModuleId>], next: usize, id: ModuleId) -> bool
    ensures { result ≡ ends_list_at id (map (λ v. v.items) cycles.now) next }
{
    match cycles.get(next) {
        Some(cycle) => ends(cycle, id),
        None => false,
    }
}

// Whether a module is the last of several.
fn ends(cycle: &[ModuleId], id: ModuleId) -> bool
    ensures { result ≡ is_list_end id cycle.now }
{
    match cycle.last() {
        Some(last) => *last == id,
        None => false,
    }
}

// The block of these modules.
fn block_of(
    alloc: Global,
    table: &Table,
    members: &[ModuleId],
    is_cycle: bool,
) -> Result<Block, AllocError>
    ensures { IfOk result (λ block.
        (owners : List ℕ) →
        AreRows table.now owners → IsBlock owners (members.now, is_cycle) block) }
{
    let mut places = Vec::new(alloc);
    let mut numbers = Vec::new(alloc);
    for (number, id) in members.iter().enumerate() {
        let row = table.row(*id);
        places.extend_from_slice(row)?;
        add_number(&mut numbers, number, row)?;
    }
    Ok(Block {
        places,
        numbers,
        is_cycle,
    })
}

// Adds the number of a module for each of its places.
fn add_number(numbers: &mut Vec<usize>, number: usize, row: &[usize]) -> Result<(), AllocError>
    ensures { OnOk result
        (numbers.new.items ≡ numbers.old.items ++ map (λ place. number) row.now) }
{
    for _ in 0..row.len() {
        numbers.push(number)?;
    }
    Ok(())
}

// The places of the items of modules that are not in the list.
fn left_places(
    alloc: Global,
    list: &[ModuleId],
    owners: &[ModuleId],
) -> Result<Vec<usize>, AllocError>
    ensures { IfOk result (λ left. left.items ≡ left_of owners.now list.now) }
{
    let mut reached = IndexSet::new(alloc);
    add_all(&mut reached, list)?;
    let mut left = Vec::new(alloc);
    for (place, owner) in owners.iter().enumerate() {
        if !reached.contains(owner) {
            left.push(place)?;
        }
    }
    Ok(left)
}
