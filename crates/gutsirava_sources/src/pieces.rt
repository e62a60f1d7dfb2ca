//! What stands at a place of a list.

ghost use Rattle.std.specs.Prelude.{◌≡◌, ◌^◌, ◌-◌, ◌<◌, length, option_map, slice_get};
ghost use Rattle.std.specs.Bool.{OnTrue};
ghost use Rattle.std.specs.List.Sorted.{IsNonDecreasing};
ghost use Rattle.gutsirava_sources.specs.Parts as parts;
ghost use Rattle.gutsirava_sources.specs.Places as places;

use bundle_syntax::{MetaPropKind, Node, Piece};

/// The key that sets the prototype of an object where it is not computed (ECMA-262, B.3.1).
pub(crate) const PROTOTYPE: &str = "__proto__";

/// The node that begins at a place.
#[tactic(auto, unfolding(crate::specs::Places::node_in))]
pub(crate) fn node_at<'a>(pieces: &[Piece<'a>], at: usize) -> Option<Node<'a>>
    ensures { result ≡ places.node_at pieces.now at }
{
    match pieces.get(at) {
        Some(Piece::Open { node, .. }) => Some(*node),
        _ => None,
    }
}

/// The node that begins right before a place.
pub(crate) fn node_before<'a>(pieces: &[Piece<'a>], at: usize) -> Option<Node<'a>>
    ensures { result ≡ places.node_before pieces.now at }
{
    if at == 0 {
        return None;
    }
    node_at(pieces, at - 1)
}

/// Whether a node is a property that is read.
#[tactic(auto, unfolding(crate::specs::Places::is_member))]
pub(crate) fn is_member(node: Option<Node<'_>>) -> bool
    ensures { result ≡ places.is_member node.entry }
{
    matches!(node, Some(Node::MemberExpr))
}

/// Whether a node is a key with its value.
#[tactic(auto, unfolding(crate::specs::Places::is_key_value))]
fn is_key_value(node: Option<Node<'_>>) -> bool
    ensures { result ≡ places.is_key_value node.entry }
{
    matches!(node, Some(Node::KeyValueProp))
}

/// Whether a node is `import.meta`.
#[tactic(auto, unfolding(crate::specs::Places::is_meta_node))]
fn is_meta_node(node: Option<Node<'_>>) -> bool
    ensures { result ≡ places.is_meta_node node.entry }
{
    match node {
        Some(Node::MetaPropExpr { kind }) => match kind {
            MetaPropKind::ImportMeta => true,
            MetaPropKind::NewTarget => false,
        },
        _ => false,
    }
}

/// The word that a node is; of any other, none.
#[tactic(auto, unfolding(crate::specs::Places::word_in))]
fn word_in<'a>(node: Option<Node<'a>>) -> &'a str
    ensures { result.now ≡ places.word_in node.entry }
{
    match node {
        Some(Node::IdentName { sym }) => sym,
        _ => "",
    }
}

/// The value of the string that a node is; of any other, none.
#[tactic(auto, unfolding(crate::specs::Places::string_in))]
fn string_in<'a>(node: Option<Node<'a>>) -> &'a str
    ensures { result.now ≡ places.string_in node.entry }
{
    match node {
        Some(Node::Str { value, .. }) => value,
        _ => "",
    }
}

/// The name, an identifier or a text, that stands at a place.
#[tactic(auto, unfolding(crate::specs::Parts::name_in, crate::specs::Places::node_in))]
pub(crate) fn name_at<'a>(pieces: &[Piece<'a>], at: usize) -> Option<&'a str>
    ensures { option_map (λ name. name.now) result ≡ parts.name_at pieces.now at }
{
    match pieces.get(at) {
        Some(Piece::Ident { sym, .. }) => Some(*sym),
        _ => text_at(pieces, at),
    }
}

/// The key of a property that stands at a place: a word, or a text, also one in brackets.
pub(crate) fn key_at<'a>(pieces: &[Piece<'a>], at: usize) -> Option<&'a str> {
    match node_at(pieces, at) {
        Some(Node::IdentName { sym }) => Some(sym),
        Some(Node::Str { value, .. }) => Some(value),
        Some(Node::ComputedPropName) => text_at(pieces, at.saturating_add(1)),
        _ => None,
    }
}

/// Whether the key of a property that stands at a place is this text.
pub(crate) fn is_key(pieces: &[Piece<'_>], at: usize, text: &str) -> bool {
    match key_at(pieces, at) {
        Some(key) => key == text,
        None => false,
    }
}

/// Whether the identifier of this text stands at a place.
pub(crate) fn is_name(pieces: &[Piece<'_>], at: usize, text: &str) -> bool {
    match pieces.get(at) {
        Some(Piece::Ident { sym, .. }) => *sym == text,
        _ => false,
    }
}

/// The text that a literal at a place stands for.
#[tactic(auto, unfolding(crate::specs::Places::text_in))]
pub(crate) fn text_at<'a>(pieces: &[Piece<'a>], at: usize) -> Option<&'a str>
    ensures { option_map (λ text. text.now) result ≡ places.text_in (places.node_at pieces.now at) }
{
    match node_at(pieces, at) {
        Some(Node::Str { value, .. }) => Some(value),
        _ => None,
    }
}

/// Whether a node ends at a place.
pub(crate) fn is_end(pieces: &[Piece<'_>], at: usize) -> bool
    ensures { OnTrue result (at < length pieces.now) }
{
    matches!(pieces.get(at), Some(Piece::Close))
}

/// The field in which the piece at a place lies.
pub(crate) fn field_of(pieces: &[Piece<'_>], at: usize) -> u8
    ensures { result ≡ places.field_in (slice_get pieces.now at) }
{
    match pieces.get(at) {
        Some(piece) => own_field(piece),
        None => 0,
    }
}

// The field in which a piece lies.
#[tactic(auto, unfolding(crate::specs::Places::own_field))]
fn own_field(piece: &Piece<'_>) -> u8
    ensures { result ≡ places.own_field piece.now }
{
    match piece {
        Piece::Open { field, .. } => *field,
        Piece::Ident { field, .. } => *field,
        Piece::Hole { field } => *field,
        Piece::Close => 0,
    }
}

/// The place behind the node that begins at a place, or behind the identifier there.
pub(crate) fn end_of(pieces: &[Piece<'_>], at: usize) -> usize
    ensures { result ≡ places.end_of pieces.now at }
{
    let mut depth: usize = 0;
    for end in at..pieces.len() {
        depth = depth_behind(depth, &pieces[end]);
        if depth == 0 {
            return end + 1;
        }
    }
    pieces.len()
}

// How many nodes are open behind a piece, where so many are before it.
#[tactic(auto, unfolding(crate::specs::Places::depth_behind))]
fn depth_behind(depth: usize, piece: &Piece<'_>) -> usize
    requires { depth < 2 ^ 64 - 1 }
    ensures { result ≡ places.depth_behind depth piece.now }
{
    match piece {
        Piece::Open { .. } => depth + 1,
        Piece::Close => depth.saturating_sub(1),
        Piece::Ident { .. } => depth,
        Piece::Hole { .. } => depth,
    }
}

/// Whether an `import.meta` begins at a place.
pub(crate) fn is_meta(pieces: &[Piece<'_>], at: usize) -> bool
    ensures { result ≡ places.is_meta pieces.now at }
{
    is_meta_node(node_at(pieces, at))
}

/// Whether an `import.meta.url` begins at a place.
pub(crate) fn is_meta_url(pieces: &[Piece<'_>], at: usize) -> bool
    ensures { result ≡ places.is_meta_url pieces.now at }
{
    let word = word_in(node_at(pieces, at.saturating_add(3)));
    is_member(node_at(pieces, at)) && word == "url" && is_meta(pieces, at.saturating_add(1))
}

/// Whether a key of an object that is not computed, and sets its prototype, begins at a place.
pub(crate) fn is_prototype_key(pieces: &[Piece<'_>], at: usize) -> bool
    ensures { result ≡ places.is_prototype_key pieces.now at }
{
    is_key_value(node_before(pieces, at)) && string_in(node_at(pieces, at)) == PROTOTYPE
}

/// Whether a place is among these numbers of places, which ascend.
pub(crate) fn contains(numbers: &[usize], at: usize) -> bool
    ensures { IsNonDecreasing numbers.now → result ≡ places.is_among numbers.now at }
{
    numbers.binary_search(&at).is_ok()
}
