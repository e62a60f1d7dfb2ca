//! Which items declare a binding or set it up.

ghost use Rattle.std.specs.Prelude.{◌≡◌, ℕ, ◌<◌, ◌↔◌, None, IfOk, All, Contains, filter, find, length, map, slice_index_or};
ghost use Rattle.bundle_order_graph.specs.Classes.{Leads};
ghost use Rattle.bundle_rules.specs.Order.{Group, Provides};
ghost use Rattle.bundle_order.specs.Seen.{seen_from};
ghost use Rattle.bundle_order.specs.Providing as Providing;
ghost use Rattle.bundle_order.specs.Providing.{binding_and_item, is_of};

use crate::numbers::rows_of;
use crate::seen::Seen;
use std::alloc::{AllocError, Global};

/// For each of so many bindings the items that declare it or set it up; an item may stand there twice.
///
/// A later item of the module that declares a binding first sets it up where at once it assigns to a chain of
/// members rooted at the binding or calls `Object.assign` with its prototype in an argument; or where the
/// binding is declared without a value, and the item is the first later one that assigns it or has it in an
/// argument of a call.
pub(crate) fn providers_of(
    alloc: Global,
    seen: &[Seen],
    owners: &[Option<usize>],
    count: usize,
) -> Result<Vec<Vec<usize>>, AllocError>
    ensures { IfOk result (λ rows.
        (g : Group) →
        seen.now ≡ seen_from 0 g.items →
        owners.now ≡ g.owners →
        All (λ one. one.binding < count) seen.now →
        (b t : ℕ) →
        Leads (map (λ v. v.items) rows.items) b t ↔ Provides g t b) }
{
    let declaring = declaring(alloc, seen)?;
    let firsts = firsts_of(alloc, &declaring, count)?;
    let filling = filling(alloc, seen, owners, &firsts)?;
    let fillers = firsts_of(alloc, &filling, count)?;
    let providing = providing(alloc, seen, owners, &firsts, &fillers)?;
    let rows = rows_of(alloc, count, &providing)?;
    Ok(rows)
}

// For each of so many bindings the first of these that denotes it.
fn firsts_of(alloc: Global, seen: &[Seen], count: usize) -> Result<Vec<Option<Seen>>, AllocError>
    ensures len { IfOk result (λ firsts. length firsts.items ≡ count) }
    ensures each { IfOk result (λ firsts.
        (b : ℕ) →
        b < count → slice_index_or firsts.items b None ≡ find (is_of b) seen.now) }
{
    let mut firsts = vec![in alloc; None; count]?;
    for one in seen {
        if one.binding < firsts.len() && firsts[one.binding].is_none() {
            firsts[one.binding] = Some(*one);
        }
    }
    Ok(firsts)
}

// Those that declare their binding.
fn declaring(alloc: Global, seen: &[Seen]) -> Result<Vec<Seen>, AllocError>
    ensures { IfOk result (λ declaring. declaring.items ≡ filter Providing.declares_binding seen.now) }
{
    let mut declaring = Vec::new(alloc);
    for one in seen {
        if one.declares {
            declaring.push(*one)?;
        }
    }
    Ok(declaring)
}

// Those that give their binding a value after the first declaration, which has none.
fn filling(
    alloc: Global,
    seen: &[Seen],
    owners: &[Option<usize>],
    firsts: &[Option<Seen>],
) -> Result<Vec<Seen>, AllocError>
    ensures { IfOk result (λ filling.
        filling.items
        ≡ filter
        (λ one. Providing.fills_after owners.now (Providing.known_of firsts.now one) one)
        seen.now) }
{
    let mut filling = Vec::new(alloc);
    for one in seen {
        if fills_after(owners, known_of(firsts, *one), *one) {
            filling.push(*one)?;
        }
    }
    Ok(filling)
}

// The binding and the item of those by which the item declares the binding or sets it up.
fn providing(
    alloc: Global,
    seen: &[Seen],
    owners: &[Option<usize>],
    firsts: &[Option<Seen>],
    fillers: &[Option<Seen>],
) -> Result<Vec<(usize, usize)>, AllocError>
    ensures { IfOk result (λ pairs.
        pairs.items
        ≡ map binding_and_item
        (filter
        (λ one.
        Providing.provides owners.now (Providing.known_of firsts.now one)
        (Providing.known_of fillers.now one) one)
        seen.now)) }
{
    let mut pairs = Vec::new(alloc);
    for one in seen {
        if provides(
            owners,
            known_of(firsts, *one),
            known_of(fillers, *one),
            *one,
        ) {
            pairs.push((one.binding, one.item))?;
        }
    }
    Ok(pairs)
}

// Whether by an identifier its item declares the binding or sets it up.
fn provides(owners: &[Option<usize>], first: Option<Seen>, filler: Option<Seen>, one: Seen) -> bool
    ensures { result ≡ Providing.provides owners.now first filler one }
{
    one.declares || sets_up_after(owners, first, one) || is_beside(filler, one)
}

// What is known of the binding of an identifier.
fn known_of(known: &[Option<Seen>], one: Seen) -> Option<Seen>
    ensures { result ≡ Providing.known_of known.now one }
{
    if one.binding < known.len() {
        known[one.binding]
    } else {
        None
    }
}

// Whether an identifier gives its binding a value after the first declaration, which has none.
fn fills_after(owners: &[Option<usize>], first: Option<Seen>, one: Seen) -> bool
    ensures { result ≡ Providing.fills_after owners.now first one }
{
    match first {
        None => false,
        Some(first) => {
            !one.declares
                && one.fills
                && first.is_empty
                && is_later_beside(owners, first.item, one.item)
        }
    }
}

// Whether at once an identifier sets up a member or the prototype of its binding after the first declaration.
fn sets_up_after(owners: &[Option<usize>], first: Option<Seen>, one: Seen) -> bool
    ensures { result ≡ Providing.sets_up_after owners.now first one }
{
    match first {
        None => false,
        Some(first) => {
            !one.declares
                && !one.is_later
                && one.sets_up
                && is_later_beside(owners, first.item, one.item)
        }
    }
}

// Whether an identifier stands in the item of this one.
fn is_beside(filler: Option<Seen>, one: Seen) -> bool
    ensures { result ≡ Providing.is_beside filler one }
{
    match filler {
        None => false,
        Some(filler) => filler.item == one.item,
    }
}

// Whether an item is a later one of the module of another.
fn is_later_beside(owners: &[Option<usize>], first: usize, later: usize) -> bool
    ensures { result ≡ Providing.is_later_beside owners.now first later }
{
    first < later && is_same_module(owner_of(owners, first), owner_of(owners, later))
}

// Whether two items are of one module.
fn is_same_module(one: Option<usize>, other: Option<usize>) -> bool
    ensures { result ≡ Providing.is_same_module one other }
{
    match (one, other) {
        (Some(one), Some(other)) => one == other,
        _ => false,
    }
}

/// The module of an item, or none.
pub(crate) fn owner_of(owners: &[Option<usize>], item: usize) -> Option<usize>
    ensures { result ≡ slice_index_or owners.now item None }
{
    if item < owners.len() {
        owners[item]
    } else {
        None
    }
}
