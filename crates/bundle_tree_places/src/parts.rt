//! The nodes that stand side by side in a list, and the texts in their fields.

ghost use Rattle.std.specs.Prelude.{◌≡◌, zero, true, ◌+◌, ◌<◌, ◌≤◌, ◌-◌, ◌^◌, length, map, IfOk, OnOk, IfSome, ◌++◌, drop, filter, option_map};
ghost use Rattle.bundle_syntax.specs.Item.{head_of, item_of};
ghost use Rattle.bundle_rules.specs.Nodes as nodes;
ghost use Rattle.bundle_rules.specs.Nodes.{first_or_nothing, field_of};
ghost use Rattle.bundle_rules.specs.Entries as entries;
ghost use Rattle.bundle_tree_places.specs.Lengths as lengths;
ghost use Rattle.bundle_tree_places.specs.Lengths.{length_of_first, head_at, kept_in};
ghost use Rattle.bundle_tree_places.specs.Parted.{part_items};

use bundle_syntax::{Node, Piece};
use std::alloc::{AllocError, Global};

/// A node in a list, and the place at which it begins.
#[derive(Clone, Copy)]
pub struct NodeAt<'p, 'a> {
    pub start: usize,
    pub pieces: &'p [Piece<'a>],
}

/// The nodes that stand side by side in a list, up to an end that closes none of them. `start` is the
/// place of the list.
pub fn side_by_side<'p, 'a>(
    alloc: Global,
    start: usize,
    pieces: &'p [Piece<'a>],
) -> Result<Vec<NodeAt<'p, 'a>>, AllocError>
    ensures { IfOk result (λ found.
        map part_items found.items ≡ nodes.side_by_side zero (map item_of pieces.now)) }
{
    let mut found = Vec::new(alloc);
    let mut at = 0usize;
    'each: while begins_node(behind(pieces, at)) {
        let rest = behind(pieces, at);
        let length = part_length(rest);
        found.push(NodeAt {
            start: start.saturating_add(at),
            pieces: &rest[..length],
        })?;
        at += length;
    }
    Ok(found)
}

/// The nodes that lie directly in a node.
pub fn parts<'p, 'a>(alloc: Global, node: NodeAt<'p, 'a>) -> Result<Vec<NodeAt<'p, 'a>>, AllocError>
    ensures { IfOk result (λ found.
        map part_items found.items ≡ nodes.parts (part_items node.entry)) }
{
    side_by_side(
        alloc,
        node.start.saturating_add(1),
        behind_first(node.pieces),
    )
}

/// The top items of a module.
pub fn top_items<'p, 'a>(
    alloc: Global,
    pieces: &'p [Piece<'a>],
) -> Result<Vec<NodeAt<'p, 'a>>, AllocError>
    ensures { IfOk result (λ found.
        map part_items found.items ≡ nodes.parts (map item_of pieces.now)) }
{
    parts(alloc, NodeAt { start: 0, pieces })
}

/// The nodes that lie directly in a node, in this field.
pub fn in_field<'p, 'a>(
    alloc: Global,
    node: NodeAt<'p, 'a>,
    field: u8,
) -> Result<Vec<NodeAt<'p, 'a>>, AllocError>
    ensures { IfOk result (λ found.
        map part_items found.items ≡ nodes.in_field field (part_items node.entry)) }
{
    let inside = behind_first(node.pieces);
    let start = node.start.saturating_add(1);
    let mut found = Vec::new(alloc);
    let mut at = 0usize;
    'each: while begins_node(behind(inside, at)) {
        let rest = behind(inside, at);
        let length = part_length(rest);
        let part = NodeAt {
            start: start.saturating_add(at),
            pieces: &rest[..length],
        };
        add_in_field(&mut found, part, field)?;
        at += length;
    }
    Ok(found)
}

// Adds a node that lies in the field.
fn add_in_field<'p, 'a>(
    found: &mut Vec<NodeAt<'p, 'a>>,
    part: NodeAt<'p, 'a>,
    field: u8,
) -> Result<(), AllocError>
    ensures { OnOk result
        (map part_items found.new.items
        ≡ map part_items found.old.items ++ kept_in field (part_items part.entry)) }
{
    if begins_in(part.pieces, field) {
        found.push(part)?;
    }
    Ok(())
}

/// The first of these nodes; the empty list where there is none.
pub fn child<'p, 'a>(node: &'p [Piece<'a>], field: u8) -> &'p [Piece<'a>]
    ensures { map item_of result.now ≡ nodes.child field (map item_of node.now) }
{
    first_in(behind_first(node), field).pieces
}

/// The first of these nodes, with its place; the empty list where there is none.
pub fn child_of<'p, 'a>(node: NodeAt<'p, 'a>, field: u8) -> NodeAt<'p, 'a>
    ensures { part_items result ≡ nodes.child field (part_items node.entry) }
{
    let found = first_in(behind_first(node.pieces), field);
    NodeAt {
        start: node.start.saturating_add(1).saturating_add(found.start),
        pieces: found.pieces,
    }
}

// The first node of a list in this field, with its place; the empty list where there is none.
fn first_in<'p, 'a>(pieces: &'p [Piece<'a>], field: u8) -> NodeAt<'p, 'a>
    ensures { part_items result
        ≡ first_or_nothing
        (filter (nodes.begins_in field) (nodes.side_by_side zero (map item_of pieces.now))) }
{
    let mut at = 0usize;
    'each: while begins_node(behind(pieces, at)) {
        let rest = behind(pieces, at);
        let length = part_length(rest);
        if begins_in(rest, field) {
            return NodeAt {
                start: at,
                pieces: &rest[..length],
            };
        }
        at += length;
    }
    NodeAt {
        start: 0,
        pieces: &pieces[..0],
    }
}

/// The list from a place on.
pub fn behind<'p, 'a>(pieces: &'p [Piece<'a>], at: usize) -> &'p [Piece<'a>]
    requires { at ≤ length pieces.now }
    ensures there { result.now ≡ drop at pieces.now }
    ensures length { length result.now + at ≡ length pieces.now }
{
    &pieces[at..]
}

// All of a list but its first element.
fn behind_first<'p, 'a>(pieces: &'p [Piece<'a>]) -> &'p [Piece<'a>]
    ensures { nodes.side_by_side zero (map item_of result.now)
        ≡ nodes.parts (map item_of pieces.now) }
{
    if pieces.is_empty() {
        return pieces;
    }
    &pieces[1..]
}

// The length of the node with which a list begins.
fn part_length(pieces: &[Piece]) -> usize
    ensures length { result ≡ length_of_first zero (map item_of pieces.now) }
    ensures bound { result ≤ length pieces.now }
    ensures some { lengths.begins_node (map item_of pieces.now) ≡ true → 0 < result }
{
    match pieces.first() {
        Some(Piece::Open { .. }) => 1 + length_inside(behind(pieces, 1)),
        Some(_) => 1,
        None => 0,
    }
}

// The length of what stands in a node, with the node's end.
fn length_inside(pieces: &[Piece]) -> usize
    ensures length { result ≡ length_of_first 1 (map item_of pieces.now) }
    ensures bound { result ≤ length pieces.now }
{
    let mut depth = 0usize;
    for (place, piece) in pieces.iter().enumerate() {
        match piece {
            Piece::Open { .. } => depth += 1,
            Piece::Close if depth == 0 => return place + 1,
            Piece::Close => depth -= 1,
            Piece::Ident { .. } => {}
            Piece::Hole { .. } => {}
        }
    }
    pieces.len()
}

// Whether a node begins a list.
fn begins_node(pieces: &[Piece]) -> bool
    ensures { result ≡ lengths.begins_node (map item_of pieces.now) }
{
    match pieces.first() {
        Some(Piece::Close) => false,
        Some(_) => true,
        None => false,
    }
}

// Whether a list begins in this field.
fn begins_in(pieces: &[Piece], field: u8) -> bool
    ensures { result ≡ nodes.begins_in field (map item_of pieces.now) }
{
    match pieces.first() {
        Some(Piece::Open { field: its, .. }) => *its == field,
        Some(Piece::Ident { field: its, .. }) => *its == field,
        Some(Piece::Hole { field: its }) => *its == field,
        Some(Piece::Close) => false,
        None => false,
    }
}

/// The node that begins a list.
pub fn node_of<'a>(pieces: &[Piece<'a>]) -> Option<Node<'a>>
    ensures { option_map head_of result ≡ head_at (map item_of pieces.now) }
{
    match pieces.first() {
        Some(Piece::Open { node, .. }) => Some(*node),
        _ => None,
    }
}

/// The text of the name that begins a list: an identifier, a word or a string.
pub fn name_of<'a>(pieces: &[Piece<'a>]) -> Option<&'a str>
    ensures { option_map (λ text. text.now) result ≡ nodes.name_of (map item_of pieces.now) }
{
    match pieces.first() {
        Some(
            Piece::Open {
                node: Node::Str { value, .. },
                ..
            },
        ) => Some(*value),
        Some(
            Piece::Open {
                node: Node::IdentName { sym },
                ..
            },
        ) => Some(*sym),
        Some(Piece::Ident { sym, .. }) => Some(*sym),
        _ => None,
    }
}

/// The text of the string that begins a list.
pub fn string_of<'a>(pieces: &[Piece<'a>]) -> Option<&'a str>
    ensures { option_map (λ text. text.now) result ≡ nodes.string_of (map item_of pieces.now) }
{
    match pieces.first() {
        Some(
            Piece::Open {
                node: Node::Str { value, .. },
                ..
            },
        ) => Some(*value),
        _ => None,
    }
}

/// The text of the name in a field of a node; the empty text where there is none.
pub fn text_in<'a>(node: &[Piece<'a>], field: u8) -> &'a str
    ensures { result.now ≡ entries.text_in field (map item_of node.now) }
{
    match name_of(child(node, field)) {
        Some(text) => text,
        None => "",
    }
}

/// The text in the second field of a node or, where it is left out, in the first.
pub fn renamed_text<'a>(node: &[Piece<'a>]) -> &'a str
    ensures { result.now ≡ entries.renamed_text (map item_of node.now) }
{
    match name_of(child(node, 1)) {
        Some(text) => text,
        None => text_in(node, 0),
    }
}
