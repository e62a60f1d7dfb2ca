//! What is seen at a place of an item: an identifier that denotes a name of the top, or a node that begins.

ghost use Rattle.std.specs.Prelude.{◌≡◌, ◌+◌, ◌<◌, ◌&&◌, ℕ, List, codes, length, map, reverse, slice_index_or};
ghost use Rattle.bundle_syntax.specs.Item.{Item, head_of, item_of};
ghost use Rattle.bundle_rules.specs.Places as places;
ghost use Rattle.bundle_rules.specs.Places.{Around, Occurrence, Spot as Place, in_field as path_in_field, occurrence_of};
ghost use Rattle.bundle_rules.specs.Nodes.{node_at};
ghost use Rattle.bundle_rules.specs.Entries.{is_call_head};
ghost use Rattle.bundle_rules.specs.Reads.{property_of};
ghost use Rattle.bundle_rules.specs.Order as order;
ghost use Rattle.bundle_rules.specs.Order.{is_text};
ghost use Rattle.bundle_order.specs.Seen.{seen_of};
ghost use Rattle.bundle_order.specs.Cut.{seen_by, top_in};
ghost use Rattle.bundle_order.specs.Numbered.{numbered_mention};
ghost use Rattle.bundle_order.specs.Told.{no_binding_told};
ghost use Rattle.bundle_order.specs.declared.told.TopBinding as the_told;
ghost use Rattle.bundle_tree_places.specs.Seconds.{AreSeconds};
ghost use Rattle.bundle_order.specs.Open.{AreItemFrames, IsItemFrame, IsItemSpot, no_value_at};

use crate::Seen;
use crate::seconds::{has_no_second, reads_member};
use crate::spot::{ItemFrame, ItemSpot, both, either};
use crate::told::TopBinding;
use bundle_syntax::{Node, Piece, Role};

/// What an element at a place is seen as, which stands in these open nodes of an item, if it denotes a binding of
/// the top.
pub(crate) fn seen_here<'a>(
    item: &[Piece<'a>],
    told: &[TopBinding],
    seconds: &[Option<usize>],
    frames: &[ItemFrame<'a>],
    number: usize,
    place: usize,
    piece: &Piece<'a>,
) -> Option<Seen>
    ensures { (at : Place) →
        at.place ≡ place →
        AreSeconds (map item_of item.now) seconds.now →
        AreItemFrames (map item_of item.now) (λ p. slice_index_or told.now p no_binding_told)
        (reverse frames.now) at.path →
        result
        ≡ seen_by number (λ p. slice_index_or told.now p no_binding_told) (map item_of item.now)
        (occurrence_of at (item_of piece.now)) }
{
    match *piece {
        Piece::Ident { field, role, .. } => match binding_at(told, place, role) {
            None => None,
            Some(binding) => Some(seen_at(item, seconds, frames, number, binding, field, role)),
        },
        Piece::Open { .. } => None,
        Piece::Hole { .. } => None,
        Piece::Close => None,
    }
}

// The binding of the top that an identifier at a place denotes; a plain word denotes none.
fn binding_at(told: &[TopBinding], place: usize, role: Role) -> Option<usize>
    ensures { result ≡ top_in role (slice_index_or told.now place no_binding_told) }
{
    match role {
        Role::Word => None,
        _ => told_at(told, place).top,
    }
}

// What is told of a place.
fn told_at(told: &[TopBinding], place: usize) -> TopBinding
    ensures { result ≡ slice_index_or told.now place no_binding_told }
{
    if place < told.len() {
        told[place]
    } else {
        TopBinding {
            top: None,
            is_object: false,
        }
    }
}

// What is known of what stands in this field of the innermost of these open nodes.
fn spot_at<'a>(frames: &[ItemFrame<'a>], field: u8) -> ItemSpot
    ensures { (item : List Item) (told : ℕ → the_told.TopBinding) (path : List Around) →
        AreItemFrames item told (reverse frames.now) path →
        IsItemSpot item told result (path_in_field field path) }
{
    if frames.len() > 0 {
        ItemSpot::inside(&frames[frames.len() - 1], field)
    } else {
        ItemSpot::outside()
    }
}

/// The open node that begins at a place, in this field of the innermost one around it.
pub(crate) fn frame_at<'a>(
    item: &[Piece<'a>],
    told: &[TopBinding],
    seconds: &[Option<usize>],
    frames: &[ItemFrame<'a>],
    place: usize,
    field: u8,
    node: Node<'a>,
) -> ItemFrame<'a>
    requires { place < length item.now }
    ensures { (path : List Around) →
        AreSeconds (map item_of item.now) seconds.now →
        AreItemFrames (map item_of item.now) (λ p. slice_index_or told.now p no_binding_told)
        (reverse frames.now) path →
        IsItemFrame (map item_of item.now) (λ p. slice_index_or told.now p no_binding_told) result
        (record { head = head_of node.entry; begins = place; field = 0 })
        (path_in_field field path) }
{
    let spot = spot_at(frames, field);
    let calls = calls_assign(item, told, seconds, place);
    ItemFrame {
        node,
        begins: place,
        spot,
        is_object_assign: both(is_call(node), calls),
    }
}

// Whether such a node is a call.
fn is_call<'a>(node: Node<'a>) -> bool
    ensures { result ≡ is_call_head (head_of node.entry) }
{
    match node {
        Node::CallExpr => true,
        _ => false,
    }
}

// Whether the callee of a call that begins at a place reads `assign` of an `Object` which nothing binds.
fn calls_assign<'a>(
    item: &[Piece<'a>],
    told: &[TopBinding],
    seconds: &[Option<usize>],
    place: usize,
) -> bool
    requires { place < length item.now }
    ensures { AreSeconds (map item_of item.now) seconds.now →
        result
        ≡ (is_text (codes "assign") (property_of (node_at (map item_of item.now) (place + 1)))
        && (slice_index_or told.now (place + 2) no_binding_told).is_object) }
{
    let reads = reads_member(item, seconds, place + 1, "assign");
    let base = told_at(told, place + 2);
    both(reads, base.is_object)
}

// An identifier that denotes a binding of the top, in this field of the innermost of these open nodes.
fn seen_at<'a>(
    item: &[Piece<'a>],
    seconds: &[Option<usize>],
    frames: &[ItemFrame<'a>],
    number: usize,
    binding: usize,
    field: u8,
    role: Role,
) -> Seen
    ensures { (told : ℕ → the_told.TopBinding) (path : List Around) (o : Occurrence) →
        AreSeconds (map item_of item.now) seconds.now →
        AreItemFrames (map item_of item.now) told (reverse frames.now) path →
        o.role ≡ role →
        o.path ≡ path_in_field field path →
        result ≡ seen_of number (numbered_mention told (map item_of item.now) o) binding }
{
    let spot = spot_at(frames, field);
    let declares = is_binding(role);
    let is_prototype = is_prototype_read(item, seconds, frames, field);
    Seen {
        item: number,
        binding,
        declares,
        is_later: spot.is_later,
        fills: either(spot.is_assigned, spot.is_in_argument),
        sets_up: either(spot.roots_chain, both(is_prototype, spot.is_in_assign)),
        is_empty: both(declares, is_empty(item, seconds, spot)),
    }
}

// Whether what stands in this field of the innermost of these open nodes is the `b` of a read `b.prototype`.
fn is_prototype_read<'a>(
    item: &[Piece<'a>],
    seconds: &[Option<usize>],
    frames: &[ItemFrame<'a>],
    field: u8,
) -> bool
    ensures { (told : ℕ → the_told.TopBinding) (path : List Around) →
        AreSeconds (map item_of item.now) seconds.now →
        AreItemFrames (map item_of item.now) told (reverse frames.now) path →
        result ≡ order.is_prototype_read (map item_of item.now) (path_in_field field path) }
{
    if frames.len() > 0 {
        let begins = frames[frames.len() - 1].begins;
        let reads = reads_member(item, seconds, begins, "prototype");
        both(field == 0, reads)
    } else {
        false
    }
}

// Whether the nearest declarator around has no value.
fn is_empty<'a>(item: &[Piece<'a>], seconds: &[Option<usize>], spot: ItemSpot) -> bool
    ensures { AreSeconds (map item_of item.now) seconds.now →
        result ≡ no_value_at (map item_of item.now) spot.declarator }
{
    match spot.declarator {
        Some(begins) => has_no_second(item, seconds, begins),
        None => false,
    }
}

// Whether a role binds a name.
fn is_binding(role: Role) -> bool
    ensures { result ≡ places.is_binding role }
{
    match role {
        Role::Binding => true,
        _ => false,
    }
}
