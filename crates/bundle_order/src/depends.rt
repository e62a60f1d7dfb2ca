//! What items depend on.

ghost use Rattle.std.specs.Prelude.{◌≡◌, ℕ, ◌<◌, ◌↔◌, IfOk, OnOk, All, Contains, false, filter, length, map};
ghost use Rattle.std.specs.List.Sorted.{IsStrictlyIncreasing};
ghost use Rattle.bundle_rules.specs.Order.{Group};
ghost use Rattle.bundle_order.specs.Seen.{seen_from};
ghost use Rattle.bundle_order.specs.Renumbered.{IsRenumbered};
ghost use Rattle.bundle_order.specs.Found.{AddsEnds, AreFound, AreReferences, AreReferred, IsEnd, AreItemDependencies, IsFoundAt, IsReferred};
ghost use Rattle.bundle_order.specs.Providing as providing;
ghost use Rattle.bundle_order.specs.Providing.{item_and_binding};

use crate::numbers::{is_among, once, rows_of};
use crate::providers::{owner_of, providers_of};
use crate::seen::Seen;
use bundle_order_sort::{Dependency, Reference};
use std::alloc::{AllocError, Global};

/// For each item what it depends on, ascending and each once, where these are the identifiers of all items that
/// denote one of so many bindings of the top, in their order, and each item's module or none. How bindings are
/// numbered changes nothing.
///
/// An item depends on another where it refers to a binding that the other declares or sets up. The dependency is
/// weak where the item is of a module and every such reference runs later. Refused only where memory runs out.
pub fn dependencies_among(
    alloc: Global,
    seen: &[Seen],
    owners: &[Option<usize>],
    count: usize,
) -> Result<Vec<Vec<Dependency>>, AllocError>
    ensures len { IfOk result (λ found. length found.items ≡ length owners.now) }
    ensures exact { IfOk result (λ found.
        (g h : Group) →
        IsRenumbered g h →
        seen.now ≡ seen_from 0 h.items →
        owners.now ≡ h.owners →
        length h.items ≡ length h.owners →
        All (λ one. one.binding < count) seen.now →
        AreFound g (map (λ v. v.items) found.items)) }
{
    let providers = providers_of(alloc, seen, owners, count)?;
    let references = referred(alloc, seen)?;
    let all = rows_of(alloc, owners.len(), &references)?;
    let strong_references = referred_strongly(alloc, seen, owners)?;
    let strong = rows_of(alloc, owners.len(), &strong_references)?;
    let found = all_dependencies(alloc, &providers, &all, &strong)?;
    Ok(found)
}

// For each item what it depends on, by the bindings to which it refers and those to which it refers strongly.
fn all_dependencies(
    alloc: Global,
    providers: &[Vec<usize>],
    all: &[Vec<usize>],
    strong: &[Vec<usize>],
) -> Result<Vec<Vec<Dependency>>, AllocError>
    requires { length strong.now ≡ length all.now }
    ensures len { IfOk result (λ found. length found.items ≡ length all.now) }
    ensures each { IfOk result (λ found.
        (s : ℕ) →
        s < length all.now →
        IsFoundAt (map (λ v. v.items) providers.now) (map (λ v. v.items) all.now)
        (map (λ v. v.items) strong.now) s (map (λ v. v.items) found.items)) }
{
    let mut found = Vec::new(alloc);
    for number in 0..all.len() {
        let row = dependencies_of(alloc, providers, &all[number], &strong[number], number)?;
        found.push(row)?;
    }
    Ok(found)
}

// What an item depends on, by the bindings to which it refers and those to which it refers strongly.
fn dependencies_of(
    alloc: Global,
    providers: &[Vec<usize>],
    all: &[usize],
    strong: &[usize],
    number: usize,
) -> Result<Vec<Dependency>, AllocError>
    ensures { IfOk result (λ found.
        AreItemDependencies (map (λ v. v.items) providers.now) all.now strong.now number found.items) }
{
    let ends = ends_of(alloc, providers, all, number)?;
    let strong_ends = ends_of(alloc, providers, strong, number)?;
    let found = dependencies_in(alloc, &ends, &strong_ends)?;
    Ok(found)
}

// The item and the binding of those that refer to their binding.
fn referred(alloc: Global, seen: &[Seen]) -> Result<Vec<(usize, usize)>, AllocError>
    ensures { IfOk result (λ pairs.
        pairs.items ≡ map item_and_binding (filter providing.refers seen.now)) }
{
    let mut pairs = Vec::new(alloc);
    for one in seen {
        if !one.declares {
            pairs.push((one.item, one.binding))?;
        }
    }
    Ok(pairs)
}

// The item and the binding of those that refer to their binding at once, or in a free item.
fn referred_strongly(
    alloc: Global,
    seen: &[Seen],
    owners: &[Option<usize>],
) -> Result<Vec<(usize, usize)>, AllocError>
    ensures { IfOk result (λ pairs.
        pairs.items
        ≡ map item_and_binding (filter (providing.refers_strongly owners.now) seen.now)) }
{
    let mut pairs = Vec::new(alloc);
    for one in seen {
        if refers_strongly(owners, *one) {
            pairs.push((one.item, one.binding))?;
        }
    }
    Ok(pairs)
}

// Whether an identifier refers to its binding at once, or in a free item.
fn refers_strongly(owners: &[Option<usize>], one: Seen) -> bool
    ensures { result ≡ providing.refers_strongly owners.now one }
{
    !one.declares && (!one.is_later || is_free(owner_of(owners, one.item)))
}

// Whether an item belongs to no module.
fn is_free(owner: Option<usize>) -> bool
    ensures { result ≡ providing.is_free_item owner }
{
    match owner {
        None => true,
        Some(_) => false,
    }
}

// The items other than this one that declare one of these bindings or set it up, ascending and each once.
fn ends_of(
    alloc: Global,
    providers: &[Vec<usize>],
    bindings: &[usize],
    number: usize,
) -> Result<Vec<usize>, AllocError>
    ensures ascending { IfOk result (λ ends. IsStrictlyIncreasing ends.items) }
    ensures each { IfOk result (λ ends.
        (t : ℕ) →
        Contains ends.items t ↔ IsEnd (map (λ v. v.items) providers.now) bindings.now number t) }
{
    let wanted = once(Vec::from_slice(alloc, bindings)?);
    let ends = ends_by(alloc, providers, &wanted, number)?;
    Ok(once(ends))
}

// The same in the order of the bindings; an item may stand there twice.
fn ends_by(
    alloc: Global,
    providers: &[Vec<usize>],
    bindings: &[usize],
    number: usize,
) -> Result<Vec<usize>, AllocError>
    ensures { IfOk result (λ ends.
        (t : ℕ) →
        Contains ends.items t ↔ IsEnd (map (λ v. v.items) providers.now) bindings.now number t) }
{
    let mut ends = Vec::new(alloc);
    for binding in bindings {
        if *binding < providers.len() {
            add_ends(&mut ends, &providers[*binding], number)?;
        }
    }
    Ok(ends)
}

// Adds the items other than this one.
fn add_ends(ends: &mut Vec<usize>, items: &[usize], number: usize) -> Result<(), AllocError>
    ensures { OnOk result (AddsEnds items.now number ends.old.items ends.new.items) }
{
    for item in items {
        if *item != number {
            ends.push(*item)?;
        }
    }
    Ok(())
}

// These items as dependencies, which are weak but for the strong ones.
fn dependencies_in(
    alloc: Global,
    all: &[usize],
    strong: &[usize],
) -> Result<Vec<Dependency>, AllocError>
    requires { IsStrictlyIncreasing strong.now }
    ensures items { IfOk result (λ found. map (λ one. one.item) found.items ≡ all.now) }
    ensures strong { IfOk result (λ found.
        All (λ one. (one.is_weak ≡ false) ↔ Contains strong.now one.item) found.items) }
{
    let mut found = Vec::new(alloc);
    for item in all {
        let is_strong = is_among(strong, *item);
        found.push(Dependency {
            item: *item,
            is_weak: !is_strong,
        })?;
    }
    Ok(found)
}

/// For each item the bindings to which it refers, and for each of so many bindings the items that declare it or set
/// it up, where these are the identifiers of all items that denote a binding of the top, in their order, and each
/// item's module or none. How bindings are numbered changes nothing.
///
/// An item depends on another where it refers to a binding that the other declares or sets up. The dependency is
/// weak where the item is of a module and every such reference runs later. Refused only where memory runs out.
pub fn references_among(
    alloc: Global,
    seen: &[Seen],
    owners: &[Option<usize>],
    count: usize,
) -> Result<(Vec<Vec<Reference>>, Vec<Vec<usize>>), AllocError>
    ensures len { IfOk result (λ found. length found.0.items ≡ length owners.now) }
    ensures exact { IfOk result (λ found.
        (g h : Group) →
        IsRenumbered g h →
        seen.now ≡ seen_from 0 h.items →
        owners.now ≡ h.owners →
        length h.items ≡ length h.owners →
        All (λ one. one.binding < count) seen.now →
        AreReferences g (map (λ v. v.items) found.0.items) (map (λ v. v.items) found.1.items)) }
{
    let providers = providers_of(alloc, seen, owners, count)?;
    let references = referred(alloc, seen)?;
    let all = rows_of(alloc, owners.len(), &references)?;
    let strong_references = referred_strongly(alloc, seen, owners)?;
    let strong = rows_of(alloc, owners.len(), &strong_references)?;
    let found = all_references(alloc, &all, &strong)?;
    Ok((found, providers))
}

// For each item the bindings to which it refers, where these are all of them and those to which it refers strongly.
fn all_references(
    alloc: Global,
    all: &[Vec<usize>],
    strong: &[Vec<usize>],
) -> Result<Vec<Vec<Reference>>, AllocError>
    requires { length strong.now ≡ length all.now }
    ensures len { IfOk result (λ found. length found.items ≡ length all.now) }
    ensures each { IfOk result (λ found.
        AreReferred (length all.now) (map (λ v. v.items) all.now) (map (λ v. v.items) strong.now)
        (map (λ v. v.items) found.items)) }
{
    let mut found = Vec::new(alloc);
    for number in 0..all.len() {
        let row = references_of(alloc, &all[number], &strong[number])?;
        found.push(row)?;
    }
    Ok(found)
}

// The bindings to which an item refers, where these are all of them and those to which it refers strongly.
fn references_of(
    alloc: Global,
    all: &[usize],
    strong: &[usize],
) -> Result<Vec<Reference>, AllocError>
    ensures { IfOk result (λ found. IsReferred all.now strong.now found.items) }
{
    let wanted = once(Vec::from_slice(alloc, all)?);
    let strong_ones = once(Vec::from_slice(alloc, strong)?);
    let found = references_in(alloc, &wanted, &strong_ones)?;
    Ok(found)
}

// These bindings as references, which are weak but for the strong ones.
fn references_in(
    alloc: Global,
    all: &[usize],
    strong: &[usize],
) -> Result<Vec<Reference>, AllocError>
    requires { IsStrictlyIncreasing strong.now }
    ensures lists { IfOk result (λ found. map (λ one. one.list) found.items ≡ all.now) }
    ensures strong { IfOk result (λ found.
        All (λ one. (one.is_weak ≡ false) ↔ Contains strong.now one.list) found.items) }
{
    let mut found = Vec::new(alloc);
    for list in all {
        let is_strong = is_among(strong, *list);
        let is_weak = !is_strong;
        found.push(Reference {
            list: *list,
            is_weak,
        })?;
    }
    Ok(found)
}
