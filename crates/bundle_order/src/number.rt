//! The numbering of items that are to be sorted: those of modules in their order, and then the free ones.

ghost use Rattle.std.specs.Prelude.{◌≡◌, ℕ, ◌<◌, ◌++◌, ◌∷◌, [], Contains, IfOk, OnOk, cond, length, map, slice_index};
ghost use Rattle.bundle_syntax.specs.Item.{head_of, item_of};
ghost use Rattle.bundle_rules.specs.Sorting as sorting;
ghost use Rattle.bundle_rules.specs.Sorting.{is_injected_head};
ghost use Rattle.bundle_order.specs.Numbering as numbering;
ghost use Rattle.bundle_order.specs.Numbering.{all_places, at_of, chosen_places, place_of};

use bundle_syntax::{Node, Piece};
use std::alloc::{AllocError, Global};

/// An item's place among all, and its module, or none where it is free.
#[derive(Clone, Copy)]
pub(crate) struct ItemPlace {
    pub(crate) at: usize,
    pub(crate) owner: Option<usize>,
}

/// The places of the items with these lists, of the modules with these numbers: first those of modules, and then
/// the free ones, which the linker noted as its own.
pub(crate) fn places_of<'a>(
    alloc: Global,
    lists: &[Vec<Piece<'a>>],
    owners: &[usize],
) -> Result<Vec<ItemPlace>, AllocError>
    requires { length owners.now ≡ length lists.now }
    ensures { IfOk result (λ places.
        places.items ≡ all_places (map (λ v. map item_of v.items) lists.now) owners.now) }
{
    let mut places = Vec::new(alloc);
    add_places(&mut places, lists, owners, false)?;
    add_places(&mut places, lists, owners, true)?;
    Ok(places)
}

// Adds the places of the free items, or of the others.
fn add_places<'a>(
    places: &mut Vec<ItemPlace>,
    lists: &[Vec<Piece<'a>>],
    owners: &[usize],
    are_free: bool,
) -> Result<(), AllocError>
    requires { length owners.now ≡ length lists.now }
    ensures { OnOk result
        (places.new.items
        ≡ places.old.items
        ++ chosen_places are_free 0 (map (λ v. map item_of v.items) lists.now) owners.now) }
{
    for (at, list) in lists.iter().enumerate() {
        add_place(places, list, at, owners[at], are_free)?;
    }
    Ok(())
}

// Adds the place of an item of a module, if it is one of those.
fn add_place<'a>(
    places: &mut Vec<ItemPlace>,
    item: &[Piece<'a>],
    at: usize,
    number: usize,
    are_free: bool,
) -> Result<(), AllocError>
    ensures { OnOk result
        (places.new.items
        ≡ places.old.items
        ++ cond (numbering.is_chosen are_free (map item_of item.now))
        (place_of are_free at number ∷ []) []) }
{
    if !is_chosen(item, are_free) {
        return Ok(());
    }
    places.push(place_at(at, number, are_free))?;
    Ok(())
}

// The place of an item of a module, which may be free.
fn place_at(at: usize, number: usize, are_free: bool) -> ItemPlace
    ensures { result ≡ place_of are_free at number }
{
    let owner = if are_free { None } else { Some(number) };
    ItemPlace { at, owner }
}

// Whether an item is one of the free ones, or one of the others.
fn is_chosen<'a>(item: &[Piece<'a>], are_free: bool) -> bool
    ensures { result ≡ numbering.is_chosen are_free (map item_of item.now) }
{
    if are_free {
        is_injected(item)
    } else {
        !is_injected(item)
    }
}

// Whether the linker noted the item as its own.
fn is_injected<'a>(item: &[Piece<'a>]) -> bool
    ensures { result ≡ sorting.is_injected (map item_of item.now) }
{
    match item.first() {
        Some(Piece::Open { node, .. }) => is_noted(*node),
        _ => false,
    }
}

fn is_noted<'a>(node: Node<'a>) -> bool
    ensures { result ≡ is_injected_head (head_of node.entry) }
{
    match node {
        Node::VarDecl { meta, .. }
        | Node::ImportDecl { meta }
        | Node::NamedExport { meta }
        | Node::ExportAll { meta } => meta.injected,
        _ => false,
    }
}

/// The places of items, in an order of their numbers.
pub(crate) fn places_by(
    alloc: Global,
    places: &[ItemPlace],
    numbers: &[usize],
) -> Result<Vec<usize>, AllocError>
    requires { (n : ℕ) → Contains numbers.now n → n < length places.now }
    ensures { IfOk result (λ order.
        order.items ≡ map (λ n. slice_index (map at_of places.now) n) numbers.now) }
{
    let mut order = Vec::new(alloc);
    for number in numbers {
        order.push(at_number(places, *number))?;
    }
    Ok(order)
}

// The place of the item with a number.
fn at_number(places: &[ItemPlace], number: usize) -> usize
    requires { number < length places.now }
    ensures { result ≡ slice_index (map at_of places.now) number }
{
    places[number].at
}

/// The places of items, in the order of their numbers.
pub(crate) fn ats_of(alloc: Global, places: &[ItemPlace]) -> Result<Vec<usize>, AllocError>
    ensures { IfOk result (λ order. order.items ≡ map at_of places.now) }
{
    places.iter().map(|place| place.at).collect(alloc)
}
