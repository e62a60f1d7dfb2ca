//! What items depend on, as a graph.

ghost use Rattle.std.specs.Prelude.{◌≡◌, ◌≢◌, ℕ, ◌<◌, ◌≤◌, ◌↔◌, [], ◌∷◌, IfOk, IfErr, IsTrue, OnOk, Some, length, map, slice_get};
ghost use Rattle.bundle_syntax.specs.Item.{item_of};
ghost use Rattle.bundle_tree_listed.specs.Tree.{module_item_items};
ghost use Rattle.bundle_rules.specs.Sorting.{AreDependencies, owners_by};
ghost use Rattle.bundle_order.specs.Grouped.{AreAscending, ArePast, IsGroup, ends_of, owner_at};
ghost use Rattle.bundle_order.specs.Items.{how_required, AreIndependent, AreBetween, AreItemNodes, GrowsGraph, IsItemGraph};

use crate::group::{Group, lists_of};
use bundle_order_graph::sort::{Required, StmtDepGraph};
use bundle_order_sort::{Dependency, SortItem};
use bundle_syntax::Piece;
use bundle_tree_ast::ModuleItem;
use bundle_tree_names::Error;
use std::alloc::{AllocError, Global};
use std::ops::Range;

/// The graph of what the items depend on, by their numbers: an item depends on another where it has a reference
/// to a name of the top that the other declares or sets up. It is required maybe where the item is not free and
/// every such reference waits for a function to run, and else always.
///
/// A range is one module's items, and an item in none is free. The caller sees to it that the ranges ascend
/// within the items and do not overlap. Refused only where memory runs out.
pub fn calc_deps(
    alloc: Global,
    items: &[ModuleItem],
    modules: &[Range<usize>],
) -> Result<StmtDepGraph, Error>
    ensures nodes { IfOk result (λ graph. AreItemNodes graph (length items.now)) }
    ensures edges { IfOk result (λ graph. AreBetween graph (length items.now)) }
    ensures dependencies { IfOk result (λ graph.
        AreAscending (map ends_of modules.now) →
        AreDependencies (map (module_item_items 0) items.now) (map ends_of modules.now) graph) }
    ensures refused { IfErr result (λ refusal. refusal ≡ Error.OutOfMemory) }
{
    let lists = lists_of(alloc, items)?;
    let group = group_by(alloc, &lists, modules)?;
    let needs = group.dependencies(alloc)?;
    Ok(graph_of(alloc, &needs)?)
}

// The items with these lists, of the modules that these ranges tell.
fn group_by<'a>(
    alloc: Global,
    lists: &[Vec<Piece<'a>>],
    modules: &[Range<usize>],
) -> Result<Group<'a>, AllocError>
    ensures len { IfOk result (λ group. length group.ranges.items ≡ length lists.now) }
    ensures group { IfOk result (λ group.
        AreAscending (map ends_of modules.now) →
        IsGroup group (map (λ v. map item_of v.items) lists.now)
        (owners_by (map ends_of modules.now) 0 (map (λ v. map item_of v.items) lists.now))) }
{
    let mut group = Group::new(alloc)?;
    let mut module = 0usize;
    for (number, item) in lists.iter().enumerate() {
        module = range_from(modules, module, number);
        group.add(item, module_at(modules, module, number))?;
    }
    Ok(group)
}

// The first range from one on that does not end before a number.
fn range_from(modules: &[Range<usize>], first: usize, number: usize) -> usize
    requires { first ≤ length modules.now }
    ensures within { result ≤ length modules.now }
    ensures past { ArePast (map ends_of modules.now) first number →
        ArePast (map ends_of modules.now) result number }
    ensures at { (range : ℕ × ℕ) →
        slice_get (map ends_of modules.now) result ≡ Some range → number < range.1 }
{
    let mut at = first;
    while at < modules.len() && modules[at].end <= number {
        at += 1;
    }
    at
}

// The number of this range, where it holds the item.
fn module_at(modules: &[Range<usize>], which: usize, number: usize) -> Option<usize>
    ensures { result
        ≡ owner_at number which (slice_get (map ends_of modules.now) which) }
{
    let range = modules.get(which)?;
    if range.start <= number && number < range.end {
        Some(which)
    } else {
        None
    }
}

// The graph of these dependencies. A number that is no item's, or its own, counts as none.
fn graph_of(alloc: Global, items: &[SortItem]) -> Result<StmtDepGraph, AllocError>
    ensures { IfOk result (λ graph. IsItemGraph graph items.now) }
{
    let mut graph = graph_with(alloc, items.len())?;
    for (number, item) in items.iter().enumerate() {
        add_edges(&mut graph, number, &item.dependencies, items.len())?;
    }
    Ok(graph)
}

// A graph of so many items that do not depend on each other.
fn graph_with(alloc: Global, count: usize) -> Result<StmtDepGraph, AllocError>
    ensures { IfOk result (λ graph. AreIndependent graph count) }
{
    let mut graph = StmtDepGraph::new(alloc);
    for number in 0..count {
        graph.add_node(number)?;
    }
    Ok(graph)
}

// Adds what an item depends on of so many items.
fn add_edges(
    graph: &mut StmtDepGraph,
    number: usize,
    dependencies: &[Dependency],
    count: usize,
) -> Result<(), AllocError>
    requires item { number < count }
    requires nodes { AreItemNodes graph.old count }
    ensures { OnOk result (GrowsGraph graph.old graph.new number count dependencies.now) }
{
    for dependency in dependencies {
        add_dependency(graph, number, *dependency, count)?;
    }
    Ok(())
}

// Adds that an item depends on another, if that is one of so many items.
fn add_dependency(
    graph: &mut StmtDepGraph,
    number: usize,
    dependency: Dependency,
    count: usize,
) -> Result<(), AllocError>
    requires item { number < count }
    requires nodes { AreItemNodes graph.old count }
    ensures { OnOk result (GrowsGraph graph.old graph.new number count (dependency ∷ [])) }
{
    if !is_on_another(dependency, number, count) {
        return Ok(());
    }
    graph.add_edge(number, dependency.item, required_by(dependency))?;
    Ok(())
}

// Whether an item depends by this on another of so many items.
fn is_on_another(dependency: Dependency, number: usize, count: usize) -> bool
    ensures { IsTrue result ↔ ((dependency.item < count) × (dependency.item ≢ number)) }
{
    dependency.item < count && dependency.item != number
}

// How much a dependency is required.
fn required_by(dependency: Dependency) -> Required
    ensures { result ≡ how_required dependency.is_weak }
{
    if dependency.is_weak {
        Required::Maybe
    } else {
        Required::Always
    }
}
