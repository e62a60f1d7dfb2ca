//! What the items need, by the lists that they share.

ghost use Rattle.std.specs.Prelude.{◌≡◌, ℕ, ◌+◌, ◌<◌, ◌↔◌, IsTrue, IfOk, IfSome, Contains, map, length};
ghost use Rattle.std.specs.List.{filter};
ghost use Rattle.bundle_order_graph.specs.Classes.{Leads};
ghost use Rattle.bundle_order_sort.specs.Items.{AreSoles, FollowsItem, IsEarlierItem, IsListEdge, IsNeeded, IsItemOf, IsOwn, ShareModule, is_within, number_behind, refers_within};
ghost use Rattle.bundle_order_sort.specs.Numbers as numbers;

use crate::{Reference, SharedItem};
use std::alloc::{AllocError, Global};

/// The edges from each item to the lists on which it depends, which are numbered on behind the
/// items, and from each list to its items.
pub(crate) fn edges_of(
    alloc: Global,
    items: &[SharedItem],
    lists: &[Vec<usize>],
) -> Result<Vec<Vec<usize>>, AllocError>
    ensures len { IfOk result (λ edges.
        length edges.items ≡ length items.now + length lists.now) }
    ensures each { IfOk result (λ edges.
        (s t : ℕ) →
        Leads (map (λ v. v.items) edges.items) s t
        ↔ IsListEdge items.now (map (λ v. v.items) lists.now) s t) }
{
    let mut edges = Vec::new(alloc);
    for item in items {
        let ends = lists_of(alloc, &item.references, items.len(), lists.len())?;
        edges.push(ends)?;
    }
    for list in lists {
        let ends = items_of(alloc, list, items.len())?;
        edges.push(ends)?;
    }
    Ok(edges)
}

/// The numbers of the lists behind `before` items, where there are `count` lists.
fn lists_of(
    alloc: Global,
    references: &[Reference],
    before: usize,
    count: usize,
) -> Result<Vec<usize>, AllocError>
    requires { before + count < 18446744073709551616 }
    ensures { IfOk result (λ ends.
        ends.items ≡ map (number_behind before) (filter (refers_within count) references.now)) }
{
    let mut ends = Vec::new(alloc);
    for reference in references {
        if reference.list < count {
            ends.push(before + reference.list)?;
        }
    }
    Ok(ends)
}

/// The numbers below `count`.
fn items_of(alloc: Global, list: &[usize], count: usize) -> Result<Vec<usize>, AllocError>
    ensures { IfOk result (λ ends. ends.items ≡ filter (is_within count) list.now) }
{
    let mut ends = Vec::new(alloc);
    for item in list {
        if *item < count {
            ends.push(*item)?;
        }
    }
    Ok(ends)
}

/// For each list the module of all of its items, where they are of one and none is free.
pub(crate) fn soles_of(
    alloc: Global,
    items: &[SharedItem],
    lists: &[Vec<usize>],
) -> Result<Vec<Option<usize>>, AllocError>
    ensures { IfOk result (λ soles.
        AreSoles items.now (map (λ v. v.items) lists.now) soles.items) }
{
    let mut soles = Vec::new(alloc);
    for list in lists {
        soles.push(sole_of(items, list))?;
    }
    Ok(soles)
}

/// The module of all of these items, where they are of one and none is free.
fn sole_of(items: &[SharedItem], list: &[usize]) -> Option<usize>
    ensures { IfSome result (λ one. (t : ℕ) → Contains list.now t → IsItemOf items.now t one) }
{
    let module = first_module(items, list);
    for item in list {
        if !is_of(items, *item, module) {
            return None;
        }
    }
    Some(module)
}

/// The module of the first of these items.
fn first_module(items: &[SharedItem], list: &[usize]) -> usize {
    if list.is_empty() {
        return 0;
    }
    let first = list[0];
    if first < items.len() {
        items[first].which
    } else {
        0
    }
}

/// Whether an item is of a module, and not free.
fn is_of(items: &[SharedItem], item: usize, which: usize) -> bool
    ensures { IsTrue result ↔ IsItemOf items.now item which }
{
    if item >= items.len() {
        return false;
    }
    let one = &items[item];
    if one.is_free {
        return false;
    }
    one.which == which
}

/// Whether the module of all items of a list, where there is one, is that of an item.
pub(crate) fn is_own(items: &[SharedItem], sole: Option<usize>, item: usize) -> bool
    ensures { IsTrue result ↔ IsOwn items.now sole item }
{
    match sole {
        None => false,
        Some(module) => is_of(items, item, module),
    }
}

/// Whether an item needs one of a list on which it depends: an item of another module, or any where
/// one of the two is free. A weak dependency from which a path of dependencies leads back is no
/// need.
pub(crate) fn is_need(
    items: &[SharedItem],
    ranks: &[usize],
    number: usize,
    end: usize,
    is_weak: bool,
) -> bool
    requires len { length ranks.now ≡ length items.now }
    requires number_in { number < length items.now }
    ensures { IsTrue result ↔ IsNeeded items.now ranks.now number end is_weak }
{
    if end >= items.len() {
        return false;
    }
    if end == number {
        return false;
    }
    if share_module(items, number, end) {
        return false;
    }
    if !is_weak {
        return true;
    }
    ranks[end] < ranks[number]
}

/// Whether the order of one module binds two items: both are of it, and neither is free.
fn share_module(items: &[SharedItem], one: usize, other: usize) -> bool
    requires one_in { one < length items.now }
    requires other_in { other < length items.now }
    ensures { IsTrue result ↔ ShareModule items.now one other }
{
    let first = &items[one];
    let second = &items[other];
    if first.is_free {
        return false;
    }
    if second.is_free {
        return false;
    }
    first.which == second.which
}

/// For each item the first of its module, and for a free item that item itself.
pub(crate) fn firsts_of(alloc: Global, items: &[SharedItem]) -> Result<Vec<usize>, AllocError>
    ensures len { IfOk result (λ firsts. length firsts.items ≡ length items.now) }
    ensures each { IfOk result (λ firsts.
        (s t : ℕ) →
        s < length items.now →
        numbers.IsEarlierNumber firsts.items s t ↔ IsEarlierItem items.now s t) }
{
    let mut firsts = Vec::new(alloc);
    let mut first = 0;
    for number in 0..items.len() {
        if !follows(items, number) {
            first = number;
        }
        firsts.push(first)?;
    }
    Ok(firsts)
}

/// Whether an item stands right after one of its module.
fn follows(items: &[SharedItem], number: usize) -> bool
    requires { number < length items.now }
    ensures { IsTrue result ↔ FollowsItem items.now number }
{
    if number == 0 {
        return false;
    }
    share_module(items, number - 1, number)
}
