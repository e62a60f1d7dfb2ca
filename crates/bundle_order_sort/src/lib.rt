//! Orders over numbers: the items of a bundle, after what they need and in the order of their module; the blocks
//! in which they are put in order; and values moved into an order.
#![tactic(auto)]

pub mod arranging;
pub(crate) mod needs;
mod plan;
pub(crate) mod stack;
mod table;

ghost use Rattle.std.specs.Prelude.{IfOk, map};
ghost use Rattle.bundle_order_sort.specs.Items.{IsGoodItemOrder};

use bundle_order_graph::classes;
use std::alloc::{AllocError, Global};

/// That an item depends on another.
#[derive(Clone, Copy)]
pub struct Dependency {
    /// The number of that other item.
    pub item: usize,
    /// It is needed only once a function runs, and not where the item itself stands.
    pub is_weak: bool,
}

/// One item with what it depends on.
#[derive(Drop)]
pub struct SortItem {
    /// The number of its module.
    pub which: usize,
    /// Its module's order does not bind it.
    pub is_free: bool,
    /// What it depends on. A number that is no item's, or its own, counts as none.
    pub dependencies: Vec<Dependency>,
}

/// That an item depends on all others of a list.
#[derive(Clone, Copy)]
pub struct Reference {
    /// The number of the list.
    pub list: usize,
    /// They are needed only once a function runs, and not where the item itself stands.
    pub is_weak: bool,
}

/// One item to sort. Items are numbered as they stand: those of the modules in order, those of one
/// module together, and then the free ones.
#[derive(Drop)]
pub struct SharedItem {
    /// The number of its module.
    pub which: usize,
    /// Its module's order does not bind it.
    pub is_free: bool,
    /// The lists on which it depends. A number that is no list's counts as none.
    pub references: Vec<Reference>,
}

/// The numbers of the items in the order in which they are put out, each once, where items share
/// the lists of what they depend on. In a list a number that is no item's counts as none, and so
/// does the number of the item itself that depends on the list.
///
/// An item needs what it depends on, unless both are of one module and neither is free, or the
/// dependency is weak and a path of dependencies leads back. It stands after what it needs, and
/// after the earlier items of its module if it is not free, wherever these steps form no cycle; a
/// need is passed over only where dependencies lead back too.
///
/// A stack holds all items, the lowest number on top. One is popped. If it is out, it is dropped.
/// Else, if it has needs that are not out, it is put back and those needs above it, the lowest on
/// top; a need from which a path of dependencies leads back counts only once for each pair. Else,
/// if it is not free, an earlier item of its module is not out and this pair was not used, it is
/// put back and the first such item above it. Else it is out next.
///
/// So of the items below a bound none is moved without need: where from none of them a path of needs
/// and own order leads to itself or to a later one of them, they are put out as they are numbered.
///
/// Where the items of a module do not stand together, an earlier one of the module counts only if
/// all between are of it too.
pub fn sort_shared(
    alloc: Global,
    items: &[SharedItem],
    lists: Vec<Vec<usize>>,
) -> Result<Vec<usize>, AllocError>
    ensures { IfOk result (λ order.
        IsGoodItemOrder items.now (map (λ v. v.items) lists.items) order.items) }
{
    let mut left = lists;
    let edges = needs::edges_of(alloc, items, &left)?;
    let mut ranks = classes::ranks_of(alloc, &edges)?;
    ranks.truncate(items.len());
    let soles = needs::soles_of(alloc, items, &left)?;
    let firsts = needs::firsts_of(alloc, items)?;
    stack::sort_numbers(alloc, items, &mut left, &soles, &ranks, &firsts)
}

pub use arranging::{Shuffle, arrange};
pub use plan::{Block, Plan, plan_asked, plan_of};
