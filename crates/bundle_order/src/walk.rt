//! The identifiers of the items of a list that denote a name of the top.

ghost use Rattle.std.specs.Prelude.{◌≡◌, ℕ, ◌<◌, ◌++◌, ◌∷◌, [], List, IfOk, OnOk, drop, length, map, reverse, slice_index_or, slice_range};
ghost use Rattle.std.specs.Option.{option_to_list};
ghost use Rattle.bundle_syntax.specs.Item.{Item, item_of};
ghost use Rattle.bundle_rules.specs.Places.{Around, outer_path, path_past};
ghost use Rattle.bundle_order.specs.Seen.{seen_from};
ghost use Rattle.bundle_order.specs.Cut.{cut_items, seen_of_item};
ghost use Rattle.bundle_order.specs.Numbered.{numbered_row};
ghost use Rattle.bundle_order.specs.Told.{no_binding_told, told_at};
ghost use Rattle.bundle_order.specs.declared.told.TopBinding as the_told;
ghost use Rattle.bundle_tree_places.specs.Seconds.{AreSeconds};
ghost use Rattle.bundle_order.specs.Open.{AreItemFrames};

use crate::Seen;
use crate::needs::ItemRange;
use crate::seeing::{frame_at, seen_here};
use crate::spot::ItemFrame;
use crate::told::{TopBinding, told_places};
use bundle_scope_denote::Denotations;
use bundle_syntax::Piece;
use bundle_tree_places::seconds::seconds_of;
use std::alloc::{AllocError, Global};

/// Those of a list, whose top bindings are those of the scope `top`, item by item.
pub(crate) fn seen_in<'a>(
    alloc: Global,
    pieces: &[Piece<'a>],
    denotations: &Denotations<'a>,
    top: usize,
    items: &[ItemRange],
) -> Result<Vec<Seen>, AllocError>
    ensures { IfOk result (λ seen.
        seen.items
        ≡ seen_from 0
        (map (numbered_row (told_at (map item_of pieces.now) denotations.now top))
        (cut_items (map item_of pieces.now) items.now))) }
{
    let told = told_places(alloc, pieces, denotations, top)?;
    let mut seen = Vec::new(alloc);
    for (number, item) in items.iter().enumerate() {
        let list = part_of(pieces, item.from, item.to);
        let told_there = rest_of(&told, item.from);
        item_seen(alloc, &mut seen, list, told_there, number)?;
    }
    Ok(seen)
}

// The elements from a place on, up to another.
fn part_of<'s, T>(list: &'s [T], from: usize, to: usize) -> &'s [T]
    ensures { result.now ≡ slice_range list.now from to }
{
    let to = to.min(list.len());
    let from = from.min(to);
    &list[from..to]
}

// The elements from a place on.
fn rest_of<'s, T>(list: &'s [T], from: usize) -> &'s [T]
    ensures { result.now ≡ drop from list.now }
{
    let from = from.min(list.len());
    &list[from..]
}

// Adds the identifiers of an item, which has this list and this number.
fn item_seen<'a>(
    alloc: Global,
    seen: &mut Vec<Seen>,
    item: &[Piece<'a>],
    told: &[TopBinding],
    number: usize,
) -> Result<(), AllocError>
    ensures { OnOk result
        (seen.new.items
        ≡ seen.old.items
        ++ seen_of_item number (λ p. slice_index_or told.now p no_binding_told) (map item_of item.now)) }
{
    let seconds = seconds_of(alloc, item)?;
    let mut frames: Vec<ItemFrame<'a>> = Vec::new(alloc);
    seen_along(seen, &mut frames, item, told, &seconds, number)
}

// The same by the second children of its nodes, where no node is open so far.
fn seen_along<'a>(
    seen: &mut Vec<Seen>,
    frames: &mut Vec<ItemFrame<'a>>,
    item: &[Piece<'a>],
    told: &[TopBinding],
    seconds: &[Option<usize>],
    number: usize,
) -> Result<(), AllocError>
    requires closed { frames.old.items ≡ [] }
    requires seconds { AreSeconds (map item_of item.now) seconds.now }
    ensures { OnOk result
        (seen.new.items
        ≡ seen.old.items
        ++ seen_of_item number (λ p. slice_index_or told.now p no_binding_told) (map item_of item.now)) }
{
    for (place, piece) in item.iter().enumerate() {
        let one = seen_here(item, told, seconds, frames, number, place, piece);
        push_some(seen, one)?;
        step_past(item, told, seconds, frames, place, piece)?;
    }
    Ok(())
}

// Adds an identifier, if there is one.
fn push_some(seen: &mut Vec<Seen>, one: Option<Seen>) -> Result<(), AllocError>
    ensures { OnOk result (seen.new.items ≡ seen.old.items ++ option_to_list one) }
{
    match one {
        None => Ok(()),
        Some(one) => {
            seen.push(one)?;
            Ok(())
        }
    }
}

// Goes past an element at a place of an item: a node that begins is open behind it, and one that ends is not.
fn step_past<'a>(
    item: &[Piece<'a>],
    told: &[TopBinding],
    seconds: &[Option<usize>],
    frames: &mut Vec<ItemFrame<'a>>,
    place: usize,
    piece: &Piece<'a>,
) -> Result<(), AllocError>
    requires { place < length item.now }
    ensures { OnOk result
        ((path : List Around) →
        AreSeconds (map item_of item.now) seconds.now →
        AreItemFrames (map item_of item.now) (λ p. slice_index_or told.now p no_binding_told)
        (reverse frames.old.items) path →
        AreItemFrames (map item_of item.now) (λ p. slice_index_or told.now p no_binding_told)
        (reverse frames.new.items) (path_past place path (item_of piece.now))) }
{
    match *piece {
        Piece::Open { field, node } => {
            let frame = frame_at(item, told, seconds, frames, place, field, node);
            push_frame(frames, frame)?;
            Ok(())
        }
        Piece::Ident { .. } => Ok(()),
        Piece::Hole { .. } => Ok(()),
        Piece::Close => {
            drop_frame(frames);
            Ok(())
        }
    }
}

// Opens a node.
fn push_frame<'a>(frames: &mut Vec<ItemFrame<'a>>, frame: ItemFrame<'a>) -> Result<(), AllocError>
    ensures { OnOk result (reverse frames.new.items ≡ frame.entry ∷ reverse frames.old.items) }
{
    frames.push(frame)?;
    Ok(())
}

// Closes the innermost node.
fn drop_frame<'a>(frames: &mut Vec<ItemFrame<'a>>)
    ensures { (item : List Item) (told : ℕ → the_told.TopBinding) (path : List Around) →
        AreItemFrames item told (reverse frames.old.items) path →
        AreItemFrames item told (reverse frames.new.items) (outer_path path) }
{
    frames.pop();
}
